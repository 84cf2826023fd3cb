//! Stamps and entries.
ghost use Rattle.std.specs.Prelude.{◌≡◌, ◌<◌, ◌++◌, ◌∷◌, [], Some, IfOk, IfErr, OnOk, length};
ghost use Rattle.clv_base.specs.Backs.{standing_numbers};
ghost use Rattle.machine_calls.specs.Steps.{entry as entry_of};
ghost use Rattle.shard_machine.specs.Answers.{Refuses, IsWorn};
ghost use Rattle.shard_machine.specs.Journaled.{MayNote, MayEnter};
ghost use Rattle.shard_machine.specs.Stamps.{newest, stamp_by};

use crate::Journal;
use clv_base::events::{Entry, Event, Outcome};
use clv_base::names::TxId;
use machine_calls::StepError;

/// Stamps end below this.
pub(crate) const STAMPS: u64 = 1 << 48;

/// The stamp of the next entry, above all of these; none where it would be 2^48 or more.
pub(crate) fn next_stamp(last: u64, clock: u64, message: u64) -> Option<u64>
    ensures { result ≡ stamp_by (newest last clock message) }
{
    let newest = last.max(clock.max(message));
    if newest < STAMPS - 1 {
        Some(newest + 1)
    } else {
        None
    }
}

/// The stamp of the next entry, or why there is none.
pub(crate) fn place(last: u64, clock: u64, message: u64) -> Result<u64, StepError>
    ensures ok { IfOk result (λ n. stamp_by (newest last clock message) ≡ Some n) }
    ensures err { IfErr result (λ e. IsWorn (stamp_by (newest last clock message)) e) }
{
    match next_stamp(last, clock, message) {
        Some(stamp) => Ok(stamp),
        None => Err(StepError::Worn { at: STAMPS }),
    }
}

/// The stamp of a request's entry, where there is room for its epoch.
pub(crate) fn place_request(journal: &mut Journal, last: u64, clock: u64) -> Result<u64, StepError>
    ensures ok { IfOk result (λ n. stamp_by (newest last clock 0) ≡ Some n) }
    ensures place { OnOk result (0 < journal.new.places) }
    ensures same { journal.new ≡ record journal.old { places = journal.new.places } }
    ensures err { IfErr result (λ e. Refuses (stamp_by (newest last clock 0)) e) }
{
    let stamp = place(last, clock, 0)?;
    match journal.reserve_request() {
        Ok(()) => Ok(stamp),
        Err(_) => Err(StepError::Memory),
    }
}

/// The stamp of an operation's entry, where its number may be noted.
pub(crate) fn place_op(
    journal: &mut Journal,
    last: u64,
    clock: u64,
    tx: TxId,
    nth: u64,
) -> Result<u64, StepError>
    ensures ok { IfOk result (λ n. stamp_by (newest last clock 0) ≡ Some n) }
    ensures place { OnOk result (MayNote journal.new.writes nth (standing_numbers tx journal.new.entries)) }
    ensures same { journal.new ≡ record journal.old { writes = journal.new.writes } }
    ensures err { IfErr result (λ e. Refuses (stamp_by (newest last clock 0)) e) }
{
    let stamp = place(last, clock, 0)?;
    if journal.reserve_write(tx, nth) {
        Ok(stamp)
    } else {
        Err(StepError::Memory)
    }
}

/// The entry goes behind the others. Takes no memory.
pub(crate) fn enter(journal: &mut Journal, stamp: u64, walker: u32, event: Event, outcome: Outcome)
    requires few { length journal.old.entries < stamp }
    requires place { MayEnter journal.old event }
    ensures entries { journal.new.entries ≡ journal.old.entries ++ entry_of stamp walker event outcome ∷ [] }
    ensures shard { journal.new.shard ≡ journal.old.shard }
{
    journal.push(Entry {
        stamp,
        walker,
        event,
        outcome,
    });
}

/// Outcomes that come of nothing.
pub(crate) fn forget(_outcome: Outcome, _copy: Outcome) {}
