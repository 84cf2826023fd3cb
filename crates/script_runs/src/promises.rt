// What a session of a script keeps.
ghost use Rattle.script_runs.specs.TriesLaws.{AcknowledgedDidTheirLines, EntriesTellTheirLines, EntriesTellOfNoOther, DropsHaveReasons, TriesAreFew, SessionTriesAreFew, TriesHaveOneBirth, TransactionsHaveOwnBirths, SessionsGoThrough, SessionsTellTheirTries};
ghost use Rattle.script_runs.specs.TriesTell.{EntriesTellTheirAnswers, AcknowledgedEndSo};

/// A try that is acknowledged did each of its lines.
pub fn acknowledged_did_their_lines()
    ensures { AcknowledgedDidTheirLines }
{}

/// What its entries tell that it did are the parts of what its lines ask for, under its answers.
pub fn entries_tell_their_lines()
    ensures { EntriesTellTheirLines }
{}

/// And they tell them with their answers.
pub fn entries_tell_their_answers()
    ensures { EntriesTellTheirAnswers }
{}

/// A try whose entries tell that a transaction is acknowledged is that transaction's, and was acknowledged.
pub fn acknowledged_end_so()
    ensures { AcknowledgedEndSo }
{}

/// Of what another transaction did they tell nothing.
pub fn entries_tell_of_no_other()
    ensures { EntriesTellOfNoOther }
{}

/// A try has drops only where it was aborted, where the line `abort` ended it, or where a shard was down before its request.
pub fn drops_have_reasons()
    ensures { DropsHaveReasons }
{}

/// A transaction has at most as many tries as are wanted.
pub fn tries_are_few()
    ensures { TriesAreFew }
{}

/// Nor does a session make more tries than it has transactions and makes entries.
pub fn session_tries_are_few()
    ensures { SessionTriesAreFew }
{}

/// The operations of all its tries bear one birth.
pub fn tries_have_one_birth()
    ensures { TriesHaveOneBirth }
{}

/// Different transactions have different births.
pub fn transactions_have_own_births()
    ensures { TransactionsHaveOwnBirths }
{}

/// A session that wasn't stopped went through all its transactions: each is acknowledged, had nothing to commit, was ended by its line `abort`, or has no
/// try left.
pub fn sessions_go_through()
    ensures { SessionsGoThrough }
{}

/// Each try has a name of its own: of the transaction of that name the session's entries tell the operations of this try alone.
pub fn sessions_tell_their_tries()
    ensures { SessionsTellTheirTries }
{}
