//! What the definitions tell of the rows.
ghost use Rattle.lock_table.specs.Rows.{TakesFewGaps};

/// On no anchor do the gap parts grow by more than the needs that are taken, whatever table keeps the rows.
pub fn takes_few_gaps()
    ensures { TakesFewGaps }
{}
