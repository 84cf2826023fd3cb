// The command `standby`.

ghost use Rattle.std.specs.Prelude.{◌≡◌, ◌<◌, ℕ, None, false, map, IfOk};
ghost use Rattle.io_model.specs.Sides.{sides_out, sides_told};
ghost use Rattle.io_model.specs.Streams.{Grows};
ghost use Rattle.report_text.specs.Sinks.{TakesText, Causes};
ghost use Rattle.cluster_runs.specs.Begun.{AreUnchanged};
ghost use Rattle.standby_base.specs.Standby.{shown as shown_by};
ghost use Rattle.clv_commands.specs.Kinds.{IsOfStandby};
ghost use Rattle.clv_commands.specs.Causes.{BreaksLogs, CountsSink, CountsDisks};
ghost use Rattle.clv_commands.specs.Standing.{firsts, kept_of, standby_text, IsShown};

use cluster_opening::read_logs;
use clv_base::logs::LogRecord;
use command_line::{RecordCounts, Status, after_text};
use io_model::{House, Sink, write_all};
use report_text::{ReportError, pairs_text};
use standby_maps::shown;
use std::alloc::{AllocError, Global};

// Of a shard's log so many of the first records are kept, all where there is no number.
fn keep(log: &mut Vec<LogRecord>, count: Option<u64>)
    ensures { log.new.items ≡ kept_of count log.old.items }
{
    if let Some(count) = count {
        log.truncate(count as usize);
    }
}

fn keep_firsts(logs: &mut Vec<Vec<LogRecord>>, counts: &RecordCounts)
    ensures { map (λ l. l.items) logs.new.items ≡ firsts counts.now (map (λ l. l.items) logs.old.items) }
{
    for shard in 0..logs.len() {
        keep(&mut logs[shard], counts.of(shard));
    }
}

// What a standby shows of these records, as bytes.
fn text_of(alloc: Global, logs: &[Vec<LogRecord>]) -> Result<Vec<u8>, AllocError>
    ensures { IfOk result (λ text. text.items ≡ standby_text (shown_by (map (λ l. l.items) logs.now))) }
{
    match shown(alloc, logs)? {
        Some(map) => pairs_text(alloc, &map.pairs(alloc)?),
        None => b"not yet\n".to_vec(alloc),
    }
}

fn text_into<K: Sink>(
    alloc: Global,
    logs: &[Vec<LogRecord>],
    sink: &mut K,
) -> Result<(), ReportError>
    ensures took { TakesText (K.taken sink.old) (K.taken sink.new) (standby_text (shown_by (map (λ l. l.items) logs.now))) result }
    ensures cause { Causes (K.faults sink.old) (K.faults sink.new) result }
{
    let Ok(text) = text_of(alloc, logs) else {
        return Err(ReportError::Memory);
    };
    match write_all(sink, &text) {
        Ok(()) => Ok(()),
        Err(_) => Err(ReportError::Failed),
    }
}

/// Shows what a standby shows that was fed so many of the first records of each shard's log. Writes to no disk.
pub fn standby<K: Sink, H: House>(
    alloc: Global,
    sink: &mut K,
    house: &mut H,
    counts: &RecordCounts,
) -> Status
    requires inside { (n : ℕ) → n < 16 → sides_out (H.is_out house.old) n ≡ (false, false) }
    ensures kind { IsOfStandby result }
    ensures shown { IsShown counts.now (sides_told (H.story house.old)) (K.taken sink.old) (K.taken sink.new) result }
    ensures unchanged { AreUnchanged (sides_told (H.story house.old)) (sides_told (H.story house.new)) }
    ensures logs { BreaksLogs result None (sides_told (H.story house.old)) }
    ensures sink { CountsSink None (K.faults sink.old) (K.faults sink.new) result }
    ensures disks { CountsDisks None (H.faults house.old) (H.faults house.new) result }
    ensures back { (n : ℕ) → n < 16 → sides_out (H.is_out house.new) n ≡ (false, false) }
{
    let mut logs = match read_logs(alloc, house) {
        Ok(logs) => logs,
        Err(error) => return error.into(),
    };
    keep_firsts(&mut logs, counts);
    after_text(Status::Fine, text_into(alloc, logs.as_slice(), sink))
}
