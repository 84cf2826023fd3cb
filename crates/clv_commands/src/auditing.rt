// The command `audit`.

ghost use Rattle.std.specs.Prelude.{◌≡◌, ◌<◌, ℕ, None, false, string_bytes, IfOk, IfErr};
ghost use Rattle.io_model.specs.Sides.{sides_out, sides_told};
ghost use Rattle.report_text.specs.Sinks.{TakesText, Causes};
ghost use Rattle.cluster_runs.specs.Begun.{AreUnchanged};
ghost use Rattle.clv_commands.specs.Kinds.{IsOfAudit};
ghost use Rattle.clv_commands.specs.Sinks.{TookVerdict};
ghost use Rattle.clv_commands.specs.Causes.{BreaksLogs, BreaksReport, CountsSource, CountsSink, CountsDisks, CountsScript, ReportFault};
ghost use Rattle.clv_commands.specs.Reading.{IsReadAs, ReadsReport};
ghost use Rattle.clv_commands.specs.Audited.{status_by, verdict_text, Writes, IsAudited};

use cluster_opening::read_logs;
use clv_audit::{Verdict, verdict_on};
use command_line::{Status, after_text};
use io_model::{House, Sink, Source, read_all, write_all};
use report_reading::{ReadError, Reported, read_report};
use report_text::ReportError;
use script_lang::MOST_BYTES;
use std::alloc::{AllocError, Global};

// Reads the report to its end.
fn read_source<S: Source>(alloc: Global, source: &mut S) -> Result<Reported, Status>
    ensures read { IfOk result (IsReadAs (S.left source.old) (S.left source.new)) }
    ensures refused { IfErr result (ReportFault (S.left source.old)) }
    ensures cause { CountsScript (S.faults source.old) (S.faults source.new) result }
{
    let bytes = match read_all(alloc, source, MOST_BYTES) {
        Ok(bytes) => bytes,
        Err(error) => return Err(error.into()),
    };
    match read_report(alloc, &bytes) {
        Ok(reported) => Ok(reported),
        Err(ReadError::Text { line }) => Err(Status::Script { line }),
        Err(ReadError::Memory) => Err(Status::Memory),
    }
}

// The status of a verdict.
fn status_of(verdict: Verdict) -> Status
    ensures { result ≡ status_by verdict }
{
    match verdict {
        Verdict::Wrong { place } => Status::WrongTransaction { place },
        Verdict::Open { count } => Status::Unsettled { count },
        Verdict::WrongMap { key } => Status::WrongMap { key },
        Verdict::Yes { .. } => Status::Fine,
    }
}

// Its line: what standard error is told too, but of a report that is true.
fn text_of(alloc: Global, verdict: Verdict) -> Result<String, AllocError>
    ensures { IfOk result (λ text. string_bytes text ≡ verdict_text verdict) }
{
    match verdict {
        Verdict::Yes { count } => format!(in alloc; "yes {count}\n"),
        other => status_of(other).text(alloc),
    }
}

fn line_into<K: Sink>(alloc: Global, verdict: Verdict, sink: &mut K) -> Result<(), ReportError>
    ensures took { TakesText (K.taken sink.old) (K.taken sink.new) (verdict_text verdict) result }
    ensures cause { Causes (K.faults sink.old) (K.faults sink.new) result }
{
    let Ok(text) = text_of(alloc, verdict) else {
        return Err(ReportError::Memory);
    };
    match write_all(sink, text.as_bytes()) {
        Ok(()) => Ok(()),
        Err(_) => Err(ReportError::Failed),
    }
}

// Writes the line of a verdict, and tells how the program ends.
fn write_verdict<K: Sink>(alloc: Global, verdict: Verdict, sink: &mut K) -> Status
    ensures { Writes (K.faults sink.old) (K.faults sink.new) (K.taken sink.old) (K.taken sink.new) verdict result }
{
    after_text(status_of(verdict), line_into(alloc, verdict, sink))
}

/// Judges the report that the source gives, with the pairs that were shown before its run, by the logs that the disks hold after it, and writes the
/// verdict. Writes to no disk.
pub fn audit<S: Source, K: Sink, H: House>(
    alloc: Global,
    source: &mut S,
    sink: &mut K,
    house: &mut H,
) -> Status
    requires inside { (n : ℕ) → n < 16 → sides_out (H.is_out house.old) n ≡ (false, false) }
    ensures kind { IsOfAudit result }
    ensures audited { IsAudited (S.left source.old) (sides_told (H.story house.old)) (K.faults sink.old) (K.faults sink.new) (K.taken sink.old) (K.taken sink.new) result }
    ensures took { TookVerdict result (K.taken sink.old) (K.taken sink.new) }
    ensures unchanged { AreUnchanged (sides_told (H.story house.old)) (sides_told (H.story house.new)) }
    ensures read { ReadsReport result (S.left source.old) (S.left source.new) }
    ensures logs { BreaksLogs result None (sides_told (H.story house.old)) }
    ensures report { BreaksReport result (S.left source.old) }
    ensures source { CountsSource (S.faults source.old) (S.faults source.new) result }
    ensures sink { CountsSink None (K.faults sink.old) (K.faults sink.new) result }
    ensures disks { CountsDisks None (H.faults house.old) (H.faults house.new) result }
    ensures back { (n : ℕ) → n < 16 → sides_out (H.is_out house.new) n ≡ (false, false) }
{
    let reported = match read_source(alloc, source) {
        Ok(reported) => reported,
        Err(status) => return status,
    };
    let logs = match read_logs(alloc, house) {
        Ok(logs) => logs,
        Err(error) => return error.into(),
    };
    match verdict_on(alloc, &reported, &logs) {
        Ok(verdict) => write_verdict(alloc, verdict, sink),
        Err(_) => Status::Memory,
    }
}
