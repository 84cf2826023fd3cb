// Sessions over two shards.
ghost use Rattle.script_runs.specs.Examples.{TransferIsRetried, TransferIsSession, ScanIsStopped, SecondThoughtGoesBack, ThoughtIsSession};

/// A transfer dies and is tried again with its birth; a scan over both shards is ended by `abort`.
pub fn transfer_is_retried()
    ensures { TransferIsRetried }
{}

/// These entries are ones that a session may make.
pub fn transfer_is_session()
    ensures { TransferIsSession }
{}

/// With one try the transfer is given up; a shard that is down stops the session in the next transaction.
pub fn scan_is_stopped()
    ensures { ScanIsStopped }
{}

/// A write is taken back: what is read behind that is the one before the savepoint.
pub fn second_thought_goes_back()
    ensures { SecondThoughtGoesBack }
{}

/// These entries are ones that a session may make.
pub fn thought_is_session()
    ensures { ThoughtIsSession }
{}
