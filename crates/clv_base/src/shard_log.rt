// What stands in a log's file.

use crate::logs::LogRecord;
use crate::values::Value;

/// A record of the log, or one of those with which a checkpoint begins it: run and epoch of the last RESTART and how many places it stands for,
/// the map's pairs by rising keys, the records that are still needed by rising LSNs, and its end.
#[derive(Drop)]
pub enum FileRecord {
    Plain(LogRecord),
    Begin { run: u32, epoch: u64, upto: u64 },
    Base { key: u64, value: Value },
    Keep { lsn: u64, record: LogRecord },
    Checked,
}
