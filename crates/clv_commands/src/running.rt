// The command `run`.

ghost use Rattle.std.specs.Prelude.{◌≡◌, ◌<◌, ◌≤◌, ℕ, List, Some, None, length, true, false, IfSome, IfErr, IfOk, OnOk};
ghost use Rattle.std.specs.List.{AllByRecursion, list_all};
ghost use Rattle.command_line.specs.declared.commands.Command.TheVariants as commands;
ghost use Rattle.clv_base.specs.declared.logs.LogRecord.{LogRecord};
ghost use Rattle.clv_base.specs.Journals.{History};
ghost use Rattle.io_model.specs.Sides.{sides_out, sides_told};
ghost use Rattle.history_replay.specs.Entries.{Kept};
ghost use Rattle.report_text.specs.Laws.{AreAllBooks};
ghost use Rattle.report_text.specs.Report.{report};
ghost use Rattle.script_lang.specs.Laws.{is_narrow_body};
ghost use Rattle.clv_commands.specs.Kinds.{IsOfRun, IsOfShards};
ghost use Rattle.clv_commands.specs.Disks.{Closes};
ghost use Rattle.clv_commands.specs.Sinks.{Took, TookReport};
ghost use Rattle.clv_commands.specs.Causes.{BreaksLogs, BreaksScript, CountsSource, CountsSink, CountsDisks, CountsScript, ScriptFault};
ghost use Rattle.clv_commands.specs.Reading.{IsRead, ReadsScript};
ghost use Rattle.clv_commands.specs.Runs.{HasScript, EndsAs, PromisedBy, Opened};

use crate::ended::Ended;
use cluster_opening::OpenError;
use cluster_runs::{Plan, Ran, Start, run_script};
use command_line::{Status, after_text};
use io_model::{House, Pace, Sink, Source, read_all};
use lock_index::HashedLocks;
use ordered_store::BlockStore;
use report_text::laws::books_are_reported;
use report_text::report_of_books_into;
use script_lang::statements::{scripts_are_narrow, scripts_have_few_sessions};
use script_lang::{MOST_BYTES, Script, parse};
use session_books::books::Book;
use std::alloc::Global;
use std::sync::Wait;
use std::thread::Threads;

// Reads the script to its end.
fn read_script<S: Source>(alloc: Global, source: &mut S) -> Result<Script, Status>
    ensures script { IfOk result (HasScript (S.left source.old)) }
    ensures read { OnOk result (IsRead (S.left source.old) (S.left source.new)) }
    ensures narrow { IfOk result (λ script. list_all (list_all is_narrow_body) script ≡ true) }
    ensures few { IfOk result (λ script. length script ≤ 64) }
    ensures refused { IfErr result (ScriptFault (S.left source.old)) }
    ensures cause { CountsScript (S.faults source.old) (S.faults source.new) result }
{
    scripts_are_narrow();
    scripts_have_few_sessions();
    let bytes = match read_all(alloc, source, MOST_BYTES) {
        Ok(bytes) => bytes,
        Err(error) => return Err(error.into()),
    };
    match parse(alloc, &bytes) {
        Ok(script) => Ok(script),
        Err(error) => Err(error.into()),
    }
}

// Writes the report of what a run's sessions kept, which came to a status, and tells how it ends.
fn write_report<K: Sink>(alloc: Global, books: Vec<Book>, running: Status, sink: &mut K) -> Status
    requires running { IsOfShards running }
    requires keeps { AllByRecursion (λ b. b.keeps ≡ true) books.items }
    ensures ends { EndsAs running result }
    ensures took { (splits : List ℕ) (before : List (List LogRecord)) (h : History) (after : List (List LogRecord)) → AreAllBooks splits before h after books.items → TookReport (report h) result (K.faults sink.old) (K.faults sink.new) (K.taken sink.old) (K.taken sink.new) }
    ensures cause { (kept : Kept) → CountsSink (Some kept) (K.faults sink.old) (K.faults sink.new) result }
{
    books_are_reported();
    if running.writes_report() {
        after_text(running, report_of_books_into(alloc, books, sink))
    } else {
        running
    }
}

/// Runs the script that the source gives, each transaction in at most so many tries, and writes the report.
pub fn run<R: Threads + Wait + Sync, S: Source, K: Sink, H: House, P: Pace + Sync>(
    rt: &R,
    alloc: Global,
    source: &mut S,
    sink: &mut K,
    house: &mut H,
    pace: &P,
    tries: u64,
) -> Ended
where
    H::Disk: Send,
    requires inside { (n : ℕ) → n < 16 → sides_out (H.is_out house.old) n ≡ (false, false) }
    requires tries { tries ≤ 1000 }
    ensures kind { IsOfRun result.status }
    ensures promised { IfSome result.history (PromisedBy (commands.Run tries) (S.left source.old) (sides_told (H.story house.old)) (sides_told (H.story house.new)) (H.faults house.old) (H.faults house.new) result.status) }
    ensures opened { Opened result.history result.status }
    ensures took { Took (commands.Run tries) result.status result.history (K.faults sink.old) (K.faults sink.new) (K.taken sink.old) (K.taken sink.new) }
    ensures closed { result.history ≡ None → Closes result.status (sides_told (H.story house.old)) (sides_told (H.story house.new)) }
    ensures read { ReadsScript result.history result.status (S.left source.old) (S.left source.new) }
    ensures logs { BreaksLogs result.status result.history (sides_told (H.story house.old)) }
    ensures script { BreaksScript result.status (S.left source.old) }
    ensures source { CountsSource (S.faults source.old) (S.faults source.new) result.status }
    ensures sink { CountsSink result.history (K.faults sink.old) (K.faults sink.new) result.status }
    ensures disks { CountsDisks result.history (H.faults house.old) (H.faults house.new) result.status }
    ensures back { (n : ℕ) → n < 16 → sides_out (H.is_out house.new) n ≡ (false, false) }
{
    let script = match read_script(alloc, source) {
        Ok(script) => script,
        Err(status) => {
            return Ended {
                status,
                history: None,
            };
        }
    };
    let most = u32::try_from(tries).unwrap();
    let ran: Result<Ran<BlockStore>, OpenError> = run_script::<BlockStore, HashedLocks, R, H, P>(
        rt,
        alloc,
        house,
        pace,
        Plan {
            sessions: script.sessions(),
            most: Some(most),
            start: Start::Together,
            keeps_rows: true,
        },
    );
    match ran {
        Ok(ran) => Ended {
            status: write_report(alloc, ran.books, ran.status, sink),
            history: Some(ran.history),
        },
        Err(error) => Ended {
            status: error.into(),
            history: None,
        },
    }
}
