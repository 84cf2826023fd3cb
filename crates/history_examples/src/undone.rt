// Logs without the home's COMMIT are opened, with the transaction in doubt on the other shard.

ghost use Rattle.history_examples.specs.Undone.{UndoneIsLegal, UndoneHasCause, UndoneIsSettled};

/// The other shard asks, the home answers abort, and the part is undone, with a transaction that read its write; the history is legal.
pub fn undone_is_legal()
    ensures { UndoneIsLegal }
{}

/// The reader is told of its predecessor's abort, and there is no member.
pub fn undone_has_cause()
    ensures { UndoneHasCause }
{}

/// Then nothing is left to do, and no key has a value.
pub fn undone_is_settled()
    ensures { UndoneIsSettled }
{}
