// A store that is made, run over twice, and shown; and one whose sessions live, and which is shown then.
ghost use Rattle.std.specs.Prelude.{◌≡◌, ◌<◌, ℕ, List, Option, false, map};
ghost use Rattle.command_line.specs.Commands.{IsCommand};
ghost use Rattle.command_line.specs.declared.commands.Command.TheVariants as commands;
ghost use Rattle.io_model.specs.Sides.{Stories, sides_out, sides_told};
ghost use Rattle.command_examples.specs.Chains.{AreJoined, IfBoth, Follows};

use cluster_runs::shards_statements::{last_logs_are_found, left_logs_are_good};
use clv_commands::{Ended, run};
use io_model::{House, Pace, Sink, Source};
use std::alloc::Global;
use std::sync::Wait;
use std::thread::Threads;

/// How each of the commands ended.
#[derive(Drop)]
pub struct Chain {
    pub made: Ended,
    pub first: Ended,
    pub second: Ended,
    pub shown: Ended,
}

/// Makes a store, runs a script over it, then another one, and shows it: each by words of its own.
///
/// What a run left the next command found, where the disks of the run's shards tell their bytes: the same splits, and the logs that the run's history
/// ends with. So the second run's history goes on from the first one's, and what is shown stands for the logs that the second one left. That the first
/// run's splits are those of `make` no clause says.
pub fn make_run_twice_and_show<
    R: Threads + Wait + Sync,
    S: Source,
    K: Sink + Send,
    H: House,
    P: Pace + Sync,
>(
    rt: &R,
    alloc: Global,
    make_words: &[&str],
    run_words: &[&str],
    show_words: &[&str],
    script: &mut S,
    another: &mut S,
    sink: &mut K,
    house: &mut H,
    pace: &P,
) -> Chain
where
    H::Disk: Send,
    requires inside { (n : ℕ) → n < 16 → sides_out (H.is_out house.old) n ≡ (false, false) }
    ensures joined { (splits : List ℕ) (tries : ℕ) → IsCommand (map (λ w. w.now) make_words.now) (commands.Make splits) → IsCommand (map (λ w. w.now) run_words.now) (commands.Run tries) → IsCommand (map (λ w. w.now) show_words.now) commands.Show → AreJoined splits result.made.status (sides_told (H.story house.old)) (sides_told (H.story house.new)) result.first.history result.second.history result.shown.history }
    ensures back { (n : ℕ) → n < 16 → sides_out (H.is_out house.new) n ≡ (false, false) }
{
    last_logs_are_found();
    left_logs_are_good();
    let made = run(rt, alloc, make_words, script, sink, house, pace);
    let first = run(rt, alloc, run_words, script, sink, house, pace);
    let second = run(rt, alloc, run_words, another, sink, house, pace);
    let shown = run(rt, alloc, show_words, another, sink, house, pace);
    Chain {
        made,
        first,
        second,
        shown,
    }
}

/// How live sessions ended, and what was shown behind them.
#[derive(Drop)]
pub struct Shown {
    pub served: Ended,
    pub shown: Ended,
}

/// Lets sessions live over a store, until their input ends, and shows it: each by words of its own. What they left is what is shown, as of a run.
pub fn serve_and_show<
    R: Threads + Wait + Sync,
    S: Source,
    K: Sink + Send,
    H: House,
    P: Pace + Sync,
>(
    rt: &R,
    alloc: Global,
    serve_words: &[&str],
    show_words: &[&str],
    source: &mut S,
    sink: &mut K,
    house: &mut H,
    pace: &P,
) -> Shown
where
    H::Disk: Send,
    requires inside { (n : ℕ) → n < 16 → sides_out (H.is_out house.old) n ≡ (false, false) }
    ensures joined { (sessions : ℕ) → IsCommand (map (λ w. w.now) serve_words.now) (commands.Serve sessions) → IsCommand (map (λ w. w.now) show_words.now) commands.Show → (between : ℕ → Option Stories) × IfBoth result.served.history result.shown.history (Follows (sides_told (H.story house.old)) between (sides_told (H.story house.new))) }
    ensures back { (n : ℕ) → n < 16 → sides_out (H.is_out house.new) n ≡ (false, false) }
{
    last_logs_are_found();
    left_logs_are_good();
    let served = run(rt, alloc, serve_words, source, sink, house, pace);
    let shown = run(rt, alloc, show_words, source, sink, house, pace);
    Shown { served, shown }
}
