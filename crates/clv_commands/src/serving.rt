// The command `serve`.

ghost use Rattle.std.specs.Prelude.{◌≡◌, ◌<◌, ◌≤◌, ℕ, None, false, IfSome};
ghost use Rattle.io_model.specs.Sides.{sides_out, sides_told};
ghost use Rattle.command_line.specs.declared.commands.Command.TheVariants as commands;
ghost use Rattle.clv_commands.specs.Kinds.{IsOfServe};
ghost use Rattle.clv_commands.specs.Disks.{Closes};
ghost use Rattle.clv_commands.specs.Causes.{BreaksLogs, CountsSourceBy, CountsSinkBy, CountsDisks};
ghost use Rattle.clv_commands.specs.Runs.{PromisedBy, ServedBy, Opened};
ghost use Rattle.clv_commands.specs.Statuses.{with_input};

use crate::ended::Ended;
use cluster_opening::OpenError;
use command_line::{Status, after_text};
use io_model::{House, Pace, ReadError, Sink, Source};
use live_runs::{LiveRan, serve_all};
use lock_index::HashedLocks;
use ordered_store::BlockStore;
use std::alloc::Global;
use std::sync::Wait;
use std::thread::Threads;

// The status behind what became of the input: a fault of the source comes in the place of a fine one alone, want of memory in that of any.
fn after_input(status: Status, read: Result<(), ReadError>) -> Status
    ensures { result ≡ with_input status read }
{
    match (read, status) {
        (Ok(()), other) => other,
        (Err(ReadError::Failed), Status::Fine) => Status::ReadFault,
        (Err(ReadError::Failed), other) => other,
        (Err(_), _) => Status::Memory,
    }
}

/// Lets so many sessions live: does each line of the source as it comes, and writes its answer.
pub fn serve<R: Threads + Wait + Sync, S: Source, K: Sink + Send, H: House, P: Pace + Sync>(
    rt: &R,
    alloc: Global,
    source: &mut S,
    sink: &mut K,
    house: &mut H,
    pace: &P,
    sessions: u64,
) -> Ended
where
    H::Disk: Send,
    requires inside { (n : ℕ) → n < 16 → sides_out (H.is_out house.old) n ≡ (false, false) }
    requires few { (1 ≤ sessions) × (sessions ≤ 64) }
    ensures kind { IsOfServe result.status }
    ensures promised { IfSome result.history (PromisedBy (commands.Serve sessions) (S.left source.old) (sides_told (H.story house.old)) (sides_told (H.story house.new)) (H.faults house.old) (H.faults house.new) result.status) }
    ensures served { IfSome result.history (ServedBy (commands.Serve sessions) (S.left source.old) (S.left source.new) (K.taken sink.old) (K.taken sink.new) (sides_told (H.story house.old)) (sides_told (H.story house.new)) (H.faults house.old) (H.faults house.new) result.status) }
    ensures opened { Opened result.history result.status }
    ensures closed { result.history ≡ None → Closes result.status (sides_told (H.story house.old)) (sides_told (H.story house.new)) }
    ensures nothing { result.history ≡ None → (source.new ≡ source.old) × (sink.new ≡ sink.old) }
    ensures logs { BreaksLogs result.status result.history (sides_told (H.story house.old)) }
    ensures source { CountsSourceBy (commands.Serve sessions) result.history (S.faults source.old) (S.faults source.new) result.status }
    ensures sink { CountsSinkBy (commands.Serve sessions) result.history (K.faults sink.old) (K.faults sink.new) result.status }
    ensures disks { CountsDisks result.history (H.faults house.old) (H.faults house.new) result.status }
    ensures back { (n : ℕ) → n < 16 → sides_out (H.is_out house.new) n ≡ (false, false) }
{
    let ran: Result<LiveRan, OpenError> = serve_all::<BlockStore, HashedLocks, R, H, P, S, K>(
        rt,
        alloc,
        house,
        pace,
        sessions as usize,
        source,
        sink,
    );
    match ran {
        Ok(ran) => {
            let LiveRan {
                history,
                status,
                read,
                written,
            } = ran;
            Ended {
                status: after_text(after_input(status, read), written),
                history: Some(history),
            }
        }
        Err(error) => Ended {
            status: error.into(),
            history: None,
        },
    }
}
