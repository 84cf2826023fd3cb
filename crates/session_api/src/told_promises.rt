// What the answers of a session's calls tell of its entries.
ghost use Rattle.session_api.specs.ToldLaws.{PointsTell, AddsTell, ScansTell, BacksTell, CommitsTell, AbortsTell, BeginningsTell, RetriesTell};

/// A beginning makes no entry.
pub fn beginnings_tell<M, S, G>()
    ensures { BeginningsTell M S G }
{}

/// Nor does another try, which has the birth of the last one.
pub fn retries_tell<M, S, G>()
    ensures { RetriesTell M S G }
{}

/// An answered operation at a key made one entry, with its answer; one that wasn't answered made none, but where the transaction died of
/// it.
pub fn points_tell<M, S, G>()
    ensures { PointsTell M S G }
{}

/// So did an addition.
pub fn adds_tell<M, S, G>()
    ensures { AddsTell M S G }
{}

/// A scan made its parts, shards rising, up to one that wasn't answered.
pub fn scans_tell<M, S, G>()
    ensures { ScansTell M S G }
{}

/// A going back made one entry on each shard where a later operation's write stood, shards rising, up to one that wasn't answered; where none
/// stood it made none.
pub fn backs_tell<M, S, G>()
    ensures { BacksTell M S G }
{}

/// A commit made its request and a look that was told its decision, and drops where that is an abort; where it isn't decided, at most the
/// request.
pub fn commits_tell<M, S, G>()
    ensures { CommitsTell M S G }
{}

/// An abort made drops of the transaction alone.
pub fn aborts_tell<M, S, G, A>()
    ensures { AbortsTell M S G A }
{}
