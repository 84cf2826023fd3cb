// Messages that come twice, and steps that no session makes.

ghost use Rattle.history_examples.specs.Repeats.{Repeats, Asked_twice, Passed_over};

/// T writes on two shards and reads on a third. A Prepare that comes twice gets the same vote; a read vote that comes twice is stale; a question
/// that comes after the END is answered by the commit, which is taken where it arrives, and the second Done is stale.
pub fn repeated_messages()
    ensures { Repeats }
{}

/// Two Prepares come before the vote is due: two votes, the same.
pub fn two_prepares_get_two_votes()
    ensures { Asked_twice }
{}

/// A key of another shard, a number left out, an operation after the request and a message that nobody sent change nothing.
pub fn illegal_steps_are_passed_over()
    ensures { Passed_over }
{}
