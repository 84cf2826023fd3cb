// The status of a run that opened its shards.

ghost use Rattle.std.specs.Prelude.{◌≡◌, ◌⊎◌, ◌++◌, ◌∷◌, [], List, Result};
ghost use Rattle.script_runs.specs.declared.ends.StopCause.{StopCause as CauseIs};
ghost use Rattle.command_line.specs.Running.{grave, IsGravest, AreFound, IsOk, RunningTold, status_by, with_text};

use crate::status::Status;
use report_text::ReportError;
use script_runs::StopCause;

// Which of two ends says more of a run.
fn rank(end: Result<(), StopCause>) -> u8
    ensures { result ≡ grave end }
{
    match end {
        Ok(()) => 0,
        Err(StopCause::Memory) => 1,
        Err(StopCause::Worn { .. }) => 2,
        Err(StopCause::Down { .. } | StopCause::Unsettled { .. }) => 3,
    }
}

/// The graver of two ends: that a shard was down says more than that stamps were worn, and this more than that memory was wanting.
/// Beginning with `Ok`, the gravest of the ends of all drains and sessions; where it is `Ok` they all are.
pub fn graver(so_far: Result<(), StopCause>, next: Result<(), StopCause>) -> Result<(), StopCause>
    ensures gravest { (ends : List (Result (Unit {0}) CauseIs)) → IsGravest ends so_far → IsGravest (ends ++ next ∷ []) result }
    ensures one { (result ≡ so_far) ⊎ (result ≡ next) }
    ensures fine { IsOk result → IsOk so_far × IsOk next }
{
    if rank(so_far) < rank(next) {
        next
    } else {
        so_far
    }
}

/// The status of a run by the gravest end of its drains and sessions, and by the lowest shard that is down at its end, which is that of
/// the lowest disk that failed. An end by a shard that was down says that there is one.
pub fn running_status(down: Option<u32>, end: Result<(), StopCause>) -> Status
    ensures told { (ends : List (Result (Unit {0}) CauseIs)) → IsGravest ends end → AreFound down ends → RunningTold down ends result }
    ensures is { result ≡ status_by down end }
{
    match (down, end) {
        (Some(shard), _) => Status::DiskFault { shard },
        (None, Ok(())) => Status::Fine,
        (None, Err(StopCause::Worn { at })) => Status::Worn { at },
        (None, Err(_)) => Status::Memory,
    }
}

/// The status after the text was written, or wasn't: want of memory comes in the place of any other, and a fault of the sink in the
/// place of a fine one alone.
pub fn after_text(status: Status, written: Result<(), ReportError>) -> Status
    ensures { result ≡ with_text status written }
{
    match written {
        Ok(()) => status,
        Err(ReportError::Memory) => Status::Memory,
        Err(ReportError::Failed) => match status {
            Status::Fine => Status::WriteFault,
            other => other,
        },
    }
}
