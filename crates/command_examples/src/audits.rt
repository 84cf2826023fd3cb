// A store that is run over, and audited.
ghost use Rattle.std.specs.Prelude.{◌≡◌, ◌<◌, ℕ, IfSome, false, map};
ghost use Rattle.io_model.specs.Sides.{sides_out, sides_told};
ghost use Rattle.command_line.specs.Commands.{IsCommand};
ghost use Rattle.command_line.specs.declared.commands.Command.TheVariants as commands;
ghost use Rattle.command_examples.specs.Audits.{IsConfirmed, StandsAsShown};

use cluster_runs::shards_statements::left_logs_are_found;
use clv_audit::statements::verdicts_are_one;
use clv_commands::{Ended, run};
use io_model::{House, Pace, Sink, Source};
use report_reading::statements::{reports_have_no_fault, reports_tell_one_thing};
use run_audit_laws::statements::{reports_of_runs_are_true, shown_is_found, texts_are_reports};
use std::alloc::Global;
use std::sync::Wait;
use std::thread::Threads;

/// How each of the commands ended.
#[derive(Drop)]
pub struct Audited {
    pub ran: Ended,
    pub audited: Ended,
}

/// Runs a script over a store, and audits what the other source tells: each by words of its own.
///
/// Where that source has the lines of the pairs that the logs stood for, and behind them the report of the run, the audit refutes nothing: it is fine, or a
/// source, a sink, a disk or memory failed it. Nothing is asked of the history, but that both together are at most 16,777,216 bytes, which an audit reads. Those
/// pairs are what a `show` before the run was of.
pub fn run_and_audit<R: Threads + Wait + Sync, S: Source, K: Sink + Send, H: House, P: Pace + Sync>(
    rt: &R,
    alloc: Global,
    run_words: &[&str],
    audit_words: &[&str],
    script: &mut S,
    reported: &mut S,
    sink: &mut K,
    house: &mut H,
    pace: &P,
) -> Audited
where
    H::Disk: Send,
    requires inside { (n : ℕ) → n < 16 → sides_out (H.is_out house.old) n ≡ (false, false) }
    ensures shown { (tries : ℕ) → IsCommand (map (λ w. w.now) run_words.now) (commands.Run tries) → IfSome result.ran.history (StandsAsShown (sides_told (H.story house.old))) }
    ensures confirmed { (tries : ℕ) → IsCommand (map (λ w. w.now) run_words.now) (commands.Run tries) → IsCommand (map (λ w. w.now) audit_words.now) commands.Audit → IsConfirmed (sides_told (H.story house.new)) (S.left reported.old) result.ran.status result.ran.history result.audited.status }
    ensures back { (n : ℕ) → n < 16 → sides_out (H.is_out house.new) n ≡ (false, false) }
{
    left_logs_are_found();
    reports_of_runs_are_true();
    texts_are_reports();
    shown_is_found();
    reports_tell_one_thing();
    reports_have_no_fault();
    verdicts_are_one();
    let ran = run(rt, alloc, run_words, script, sink, house, pace);
    let audited = run(rt, alloc, audit_words, reported, sink, house, pace);
    Audited { ran, audited }
}
