// Live sessions, from the disks to the disks.
ghost use Rattle.std.specs.Prelude.{◌≡◌, ◌<◌, ◌≤◌, ℕ, false, IfOk, IfErr};
ghost use Rattle.cluster_opening.specs.Opening.{Refuses, CountsOpen};
ghost use Rattle.cluster_runs.specs.Begun.{LeavesDisks};
ghost use Rattle.io_model.specs.Streams.{CountsReading};
ghost use Rattle.io_model.specs.Sides.{sides_out, sides_told};
ghost use Rattle.report_text.specs.Sinks.{Causes};
ghost use Rattle.live_runs.specs.Lived.{ServedAll};

use crate::laws::replies_are_in_history;
use crate::over::{Served, serve_over};
use cluster_closing::Closed;
use cluster_opening::OpenError;
use cluster_runs::{Opened, close_run, open_all};
use command_line::{Status, running_status};
use history_replay::History;
use io_model::{House, Pace, ReadError, Sink, Source};
use lean_machine::LeanMachine;
use lock_table::Locks;
use log_gate::LogGate;
use ordered_store::Store;
use report_text::ReportError;
use shard_machine::ShardMachine;
use std::alloc::Global;
use std::sync::Wait;
use std::thread::Threads;

/// What live sessions leave.
#[derive(Drop)]
pub struct LiveRan {
    /// What all shards did, from the logs that were found.
    pub history: History,
    /// Without what became of the input and the output.
    pub status: Status,
    pub read: Result<(), ReadError>,
    pub written: Result<(), ReportError>,
}

/// Opens the disks of a house, drains, lets so many sessions live, drains and closes. Every disk is in the house again after it.
///
/// What all shards did is a legal history that keeps the promise of a run. The entries of each session are those of the calls that its lines ask for, in order, each with
/// its reply; a reply "committed" is of a transaction that the history acknowledges. Each session took a front of its lines of what was read, and the sink took lines of
/// replies, of each session's a front; where nothing failed the input was read to its end, each line was done, and each reply written. The status says what drains and sessions
/// came to, and nothing of the input and the output. An `Err` is the first refusal of the opening, as `open_all` tells it; then nothing is read or written, and there is no
/// history.
pub fn serve_all<
    S: Store + Drop + Send,
    L: Locks + Drop + Send,
    R: Threads + Wait + Sync,
    H: House,
    P: Pace + Sync,
    I: Source,
    K: Sink + Send,
>(
    rt: &R,
    alloc: Global,
    house: &mut H,
    pace: &P,
    sessions: usize,
    source: &mut I,
    sink: &mut K,
) -> Result<LiveRan, OpenError>
where
    H::Disk: Send,
    requires inside { (n : ℕ) → n < 16 → sides_out (H.is_out house.old) n ≡ (false, false) }
    requires few { sessions ≤ 64 }
    ensures served { IfOk result (λ r. ServedAll (sides_told (H.story house.old)) (sides_told (H.story house.new)) (H.faults house.old) (H.faults house.new) sessions (I.left source.old) (I.left source.new) (K.taken sink.old) (K.taken sink.new) r.read r.written r.history r.status) }
    ensures source { IfOk result (λ r. CountsReading (I.faults source.old) (I.faults source.new) r.read) }
    ensures sink { IfOk result (λ r. Causes (K.faults sink.old) (K.faults sink.new) r.written) }
    ensures back { (n : ℕ) → n < 16 → sides_out (H.is_out house.new) n ≡ (false, false) }
    ensures refused { IfErr result (Refuses (sides_told (H.story house.old))) }
    ensures counts { IfErr result (CountsOpen (H.faults house.old) (H.faults house.new)) }
    ensures left { IfErr result (LeavesDisks (sides_told (H.story house.old)) (sides_told (H.story house.new))) }
    ensures nothing { IfErr result (λ e. (source.new ≡ source.old) × (sink.new ≡ sink.old)) }
{
    replies_are_in_history();
    let opened = match open_all::<S, L, H>(alloc, house, sessions, 0) {
        Ok(opened) => opened,
        Err(error) => return Err(error),
    };
    let Opened {
        shards,
        mut walkers,
        room,
        found,
    } = opened;
    let Served { end, read, written } = serve_over(
        rt,
        alloc,
        &shards,
        pace,
        &mut walkers,
        sessions,
        source,
        sink,
    );
    let closed = close_run::<H, LeanMachine<ShardMachine<S, L, LogGate<H::Disk>>>>(
        alloc, house, shards, walkers, room,
    );
    let Closed {
        journals,
        maps: _,
        down,
        ends: _,
    } = closed;
    Ok(LiveRan {
        history: History::new(journals, found),
        status: running_status(down, end),
        read,
        written,
    })
}
