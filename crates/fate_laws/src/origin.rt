// Where what a shard has of transactions comes from.

ghost use Rattle.fate_laws.specs.Origins.{AllComesOfEntries, PreparesComeOfRequests};

/// After each front of a legal history, whatever a shard has of a transaction comes of entries so far, or the transaction is of an earlier run:
/// an active part of operations that it answered in this epoch, a closed one, a PREPARE or a COMMIT of a request, an UPDATE of an operation.
pub fn all_comes_of_entries()
    ensures { AllComesOfEntries }
{}

/// A Prepare that is delivered comes of a request that was taken before, at another shard, which it names as its home.
pub fn prepares_come_of_requests()
    ensures { PreparesComeOfRequests }
{}
