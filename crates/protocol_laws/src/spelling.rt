//! What each change keeps.
ghost use Rattle.protocol_laws.specs.Spelled.{AbortsKeep, ClosingsKeep, DropsKeep, EndsKeep, OperationsKeep, PurgesKeep, RecordsKeep, RestartsAreSpelled, RollsKeep};

/// A granted operation of a transaction with a spelling, on keys and numbers of 64 bits and texts of at most 200 bytes.
pub fn operations_keep()
    ensures { OperationsKeep }
{}

/// Closing a part, for a home below 16, where the transaction has at most 1,024 undecided predecessors.
pub fn closings_keep()
    ensures { ClosingsKeep }
{}

/// An abort, where the log has fewer than 2^64 records; a Drop; and a going back.
pub fn aborts_keep()
    ensures aborts { AbortsKeep }
    ensures drops { DropsKeep }
    ensures rolls { RollsKeep }
{}

/// The end of parts, more records that have spellings, and ghosts that go.
pub fn others_keep()
    ensures ends { EndsKeep }
    ensures records { RecordsKeep }
    ensures purges { PurgesKeep }
{}

/// A restart whose log has spellings.
pub fn restarts_are_spelled()
    ensures { RestartsAreSpelled }
{}
