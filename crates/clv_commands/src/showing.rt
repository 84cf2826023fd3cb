// The command `show`.

ghost use Rattle.std.specs.Prelude.{◌≡◌, ◌<◌, ℕ, [], map, Some, None, false, IfSome, IfOk};
ghost use Rattle.clv_base.specs.Logs.{stands as stands_for};
ghost use Rattle.io_model.specs.Sides.{sides_out, sides_told};
ghost use Rattle.command_line.specs.declared.commands.Command.TheVariants as commands;
ghost use Rattle.command_line.specs.declared.status.Status.TheVariants.{Fine};
ghost use Rattle.ordered_store.specs.InTurn.{live_in_turn};
ghost use Rattle.report_text.specs.Report.{pairs_text as text_of_pairs};
ghost use Rattle.report_text.specs.Sinks.{TakesText, Causes};
ghost use Rattle.clv_commands.specs.Kinds.{IsOfShow, IsOfShards};
ghost use Rattle.clv_commands.specs.Disks.{Closes};
ghost use Rattle.clv_commands.specs.Sinks.{Took, TookPairs};
ghost use Rattle.clv_commands.specs.Causes.{BreaksLogs, CountsSink, CountsDisks};
ghost use Rattle.clv_commands.specs.Runs.{EndsAs, HasRun, Opened};

use crate::ended::Ended;
use cluster_opening::OpenError;
use cluster_runs::replay::nothing_is_replayed;
use cluster_runs::{Plan, Ran, Start, run_script};
use command_line::{Status, after_text};
use history_replay::History;
use io_model::{House, Pace, Sink, write_all};
use lock_index::HashedLocks;
use ordered_store::{BlockStore, Store};
use report_text::{ReportError, pairs_text};
use std::alloc::{AllocError, Global};
use std::sync::Wait;
use std::thread::Threads;

// The text of the live pairs of all stores, one after another.
fn text_of(alloc: Global, stores: &[BlockStore]) -> Result<Vec<u8>, AllocError>
    ensures { IfOk result (λ text. text.items ≡ text_of_pairs (live_in_turn (map (λ s. ⟦<BlockStore as Store>⟧.records s) stores.now))) }
{
    let pairs = BlockStore::live_pairs(alloc, stores)?;
    pairs_text(alloc, &pairs)
}

// Writes it.
fn pairs_into<K: Sink>(
    alloc: Global,
    stores: &[BlockStore],
    sink: &mut K,
) -> Result<(), ReportError>
    ensures took { TakesText (K.taken sink.old) (K.taken sink.new) (text_of_pairs (live_in_turn (map (λ s. ⟦<BlockStore as Store>⟧.records s) stores.now))) result }
    ensures cause { Causes (K.faults sink.old) (K.faults sink.new) result }
{
    let Ok(text) = text_of(alloc, stores) else {
        return Err(ReportError::Memory);
    };
    match write_all(sink, &text) {
        Ok(()) => Ok(()),
        Err(_) => Err(ReportError::Failed),
    }
}

// Writes the pairs that the logs found stand for, which the stores hold, where all was fine so far, and tells how the program ends.
fn write_pairs<K: Sink>(
    alloc: Global,
    history: &History,
    stores: &[BlockStore],
    running: Status,
    sink: &mut K,
) -> Status
    requires held { running ≡ Fine → live_in_turn (map (λ s. ⟦<BlockStore as Store>⟧.records s) stores.now) ≡ stands_for history.now.found }
    requires running { IsOfShards running }
    ensures ends { EndsAs running result }
    ensures took { TookPairs (text_of_pairs (stands_for history.now.found)) result (K.taken sink.old) (K.taken sink.new) }
    ensures cause { CountsSink (Some history.now) (K.faults sink.old) (K.faults sink.new) result }
{
    match running {
        Status::Fine => after_text(running, pairs_into(alloc, stores, sink)),
        other => other,
    }
}

/// Shows all pairs: those of the stores, behind an opening and a drain.
pub fn show<R: Threads + Wait + Sync, K: Sink, H: House, P: Pace + Sync>(
    rt: &R,
    alloc: Global,
    sink: &mut K,
    house: &mut H,
    pace: &P,
) -> Ended
where
    H::Disk: Send,
    requires inside { (n : ℕ) → n < 16 → sides_out (H.is_out house.old) n ≡ (false, false) }
    ensures kind { IsOfShow result.status }
    ensures promised { IfSome result.history (λ kept. HasRun None [] (sides_told (H.story house.old)) (sides_told (H.story house.new)) (H.faults house.old) (H.faults house.new) kept result.status) }
    ensures opened { Opened result.history result.status }
    ensures took { Took commands.Show result.status result.history (K.faults sink.old) (K.faults sink.new) (K.taken sink.old) (K.taken sink.new) }
    ensures closed { result.history ≡ None → Closes result.status (sides_told (H.story house.old)) (sides_told (H.story house.new)) }
    ensures logs { BreaksLogs result.status result.history (sides_told (H.story house.old)) }
    ensures sink { CountsSink result.history (K.faults sink.old) (K.faults sink.new) result.status }
    ensures disks { CountsDisks result.history (H.faults house.old) (H.faults house.new) result.status }
    ensures back { (n : ℕ) → n < 16 → sides_out (H.is_out house.new) n ≡ (false, false) }
{
    nothing_is_replayed();
    let ran: Result<Ran<BlockStore>, OpenError> = run_script::<BlockStore, HashedLocks, R, H, P>(
        rt,
        alloc,
        house,
        pace,
        Plan {
            sessions: &[],
            most: None,
            start: Start::Together,
            keeps_rows: false,
        },
    );
    match ran {
        Ok(ran) => Ended {
            status: write_pairs(alloc, &ran.history, &ran.maps, ran.status, sink),
            history: Some(ran.history),
        },
        Err(error) => Ended {
            status: error.into(),
            history: None,
        },
    }
}
