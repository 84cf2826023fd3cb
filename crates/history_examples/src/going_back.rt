// Goings back.

ghost use Rattle.history_examples.specs.GoingBack.{GoesBackToAfterTheFirst, SecondTakesTheRest, CrossingsDoNotCommit, LocksStay, AdditionsAreTakenBack, NobodyWaitsForWhatIsTakenBack, HomesCommitWithoutAWrite, VotesWaitForTheUndo, GoingsBackHaveOrder};

/// A transaction puts 1, puts 2 and reads 2, goes back to after its first operation, and reads 1. Its log has a CLR of the second UPDATE, and the history is
/// legal and replays with the answers of all its operations.
pub fn goes_back_to_after_the_first()
    ensures { GoesBackToAfterTheFirst }
{}

/// A second going back takes away what was written since the first, and nothing twice.
pub fn second_takes_the_rest()
    ensures { SecondTakesTheRest }
{}

/// Who goes back to a number that an earlier going back went over may not commit.
pub fn crossings_do_not_commit()
    ensures { CrossingsDoNotCommit }
{}

/// What was taken back stays locked.
pub fn locks_stay()
    ensures { LocksStay }
{}

/// Of two that add to a number the first goes back, and the other's sum stays.
pub fn additions_are_taken_back()
    ensures { AdditionsAreTakenBack }
{}

/// Who reads where all was taken back has no predecessor, and is acknowledged before the other is decided.
pub fn nobody_waits_for_what_is_taken_back()
    ensures { NobodyWaitsForWhatIsTakenBack }
{}

/// The home of that other one commits it with its part elsewhere, though nothing of it stands at home.
pub fn homes_commit_without_a_write()
    ensures { HomesCommitWithoutAWrite }
{}

/// A part that took all back votes that it read, once what took it back is durable.
pub fn votes_wait_for_the_undo()
    ensures { VotesWaitForTheUndo }
{}

/// What may follow in the log of one that went back.
pub fn goings_back_have_order()
    ensures { GoingsBackHaveOrder }
{}
