// The statuses, with their numbers and texts.

ghost use Rattle.std.specs.Prelude.{◌≡◌, string_bytes, IfOk};
ghost use Rattle.command_line.specs.Texts.{number_of, place_text, text_of, writes_report as tells};

use cluster_opening::At;
use clv_base::names::TxId;
use std::alloc::{AllocError, Global};

/// How the program ends, with its number in the order of the system's exit statuses.
#[derive(Clone, Copy, PartialEq, Eq)]
pub enum Status {
    /// 0: all was done.
    Fine,
    /// 2: the words are no command.
    Usage,
    /// 3: this line of the script, or of the report, is the first outside the grammar at its place; 0 where there are more than 16,777,216 bytes.
    Script { line: u64 },
    /// 4: the source failed.
    ReadFault,
    /// 5: the sink failed.
    WriteFault,
    /// 6: the shard's disk failed, and none below it.
    DiskFault { shard: u32 },
    /// 7: the shard's disk breaks the rules of a log first at this place.
    NotLog { shard: u32, at: At },
    /// 8: there was no memory.
    Memory,
    /// 9: this number, a stamp or a run, is past its bound.
    Worn { at: u64 },
    /// 10: the shard's disk has so many bytes already.
    Exists { shard: u32, len: u64 },
    /// 11: the logs disagree on this transaction, the least such.
    Apart { tx: TxId },
    /// 12: no serial run has this transaction of the report, counted from 1, behind those before it.
    WrongTransaction { place: u64 },
    /// 12: the logs stand for something else at this key, the least one, than the report's transactions lead to.
    WrongMap { key: u64 },
    /// 13: the report has so many transactions that are unsettled.
    Unsettled { count: u64 },
}

fn not_log(alloc: Global, shard: u32, at: At) -> Result<String, AllocError>
    ensures { IfOk result (λ s. string_bytes s ≡ place_text shard at) }
{
    match at {
        At::Byte(offset) => format!(in alloc; "shard {shard}: not a log at byte {offset}\n"),
        At::Record(n) => format!(in alloc; "shard {shard}: not a log at record {n}\n"),
    }
}

impl Status {
    /// Its number.
    pub fn number(&self) -> u8
        ensures { result ≡ number_of self.now }
    {
        match self {
            Status::Fine => 0,
            Status::Usage => 2,
            Status::Script { .. } => 3,
            Status::ReadFault => 4,
            Status::WriteFault => 5,
            Status::DiskFault { .. } => 6,
            Status::NotLog { .. } => 7,
            Status::Memory => 8,
            Status::Worn { .. } => 9,
            Status::Exists { .. } => 10,
            Status::Apart { .. } => 11,
            Status::WrongTransaction { .. } => 12,
            Status::WrongMap { .. } => 12,
            Status::Unsettled { .. } => 13,
        }
    }

    /// The line that the program writes to standard error, with its line feed; none where all is fine.
    pub fn text(&self, alloc: Global) -> Result<String, AllocError>
        ensures { IfOk result (λ s. string_bytes s ≡ text_of self.now) }
    {
        match *self {
            Status::Fine => Ok(String::new(alloc)),
            Status::Usage => format!(in alloc;
                "usage: clv_shell make [SPLIT].. | run [--tries N] | show | load --seed S --sessions N --accounts A --transfers T | serve [--sessions N] | audit | standby [N]..\n"
            ),
            Status::Script { line } => format!(in alloc; "script line {line}\n"),
            Status::ReadFault => format!(in alloc; "read fault\n"),
            Status::WriteFault => format!(in alloc; "write fault\n"),
            Status::DiskFault { shard } => format!(in alloc; "disk fault on shard {shard}\n"),
            Status::NotLog { shard, at } => not_log(alloc, shard, at),
            Status::Memory => format!(in alloc; "want of memory\n"),
            Status::Worn { at } => format!(in alloc; "worn at {at}\n"),
            Status::Exists { shard, len } => {
                format!(in alloc; "shard {shard}: length {len}, not 0\n")
            }
            Status::Apart { tx } => {
                let TxId {
                    run,
                    session,
                    serial,
                } = tx;
                format!(in alloc; "transaction {run}.{session}.{serial}: logs apart\n")
            }
            Status::WrongTransaction { place } => format!(in alloc; "no: transaction {place}\n"),
            Status::WrongMap { key } => format!(in alloc; "no: key {key}\n"),
            Status::Unsettled { count } => format!(in alloc; "unsettled {count}\n"),
        }
    }

    /// Whether a run that ends so far with this status writes its report: it does unless there was no memory.
    pub fn writes_report(&self) -> bool
        ensures { result ≡ tells self.now }
    {
        matches!(
            self,
            Status::Fine | Status::DiskFault { .. } | Status::Worn { .. }
        )
    }
}
