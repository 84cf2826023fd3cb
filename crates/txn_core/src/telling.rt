//! What is told of a transaction here.
ghost use Rattle.std.specs.Prelude.{◌≡◌, ◌||◌, ◌&&◌, not, IfOk};
ghost use Rattle.std.specs.Ordering.{is_eq};
ghost use Rattle.std.specs.List.{list_all, list_any};
ghost use Rattle.std.specs.List.Sorted.{IsStrictlySortedBy};
ghost use Rattle.clv_base.specs.Facts.{facts_in};
ghost use Rattle.clv_base.specs.Facts.{state_by, doom_by, is_restored_by};
ghost use Rattle.txn_core.specs.State.{stage_by};
ghost use Rattle.clv_base.specs.Logs.{commit_lsn, committed_in};
ghost use Rattle.clv_base.specs.Orders.{tx_cmp, tx_get, tx_same, birth_cmp};
ghost use Rattle.tx_table.specs.Parts.{parts_here};
ghost use Rattle.clv_base.specs.State.{is_closed_stage, is_active_stage};
ghost use Rattle.clv_base.specs.Journals.{has_equal_active_birth as has_equal_birth_in};

use crate::shard::ShardTx;
use clv_base::names::{Birth, TxId};
use clv_base::parts::{PartFacts, PartState};
use clv_base::state::{Held, Stage};
use lock_table::{Locks, Memory};
use ordered_store::Store;
use std::alloc::Global;

/// The stage of a part, where it is known.
fn stage_of(part: Option<Held>) -> Option<Stage>
    ensures { result ≡ stage_by part }
{
    match part {
        Some(part) => Some(part.stage),
        None => None,
    }
}

/// How far a part is, by its stage.
fn state_of(stage: Option<Stage>) -> PartState
    ensures { result ≡ state_by stage }
{
    match stage {
        None => PartState::Unknown,
        Some(Stage::Active) => PartState::Active,
        Some(Stage::Closed) => PartState::Closed,
        Some(Stage::Gone { .. }) => PartState::Gone,
    }
}

/// Whose abort took a part away, by its stage.
fn doom_of(stage: Option<Stage>) -> Option<TxId>
    ensures { result ≡ doom_by stage }
{
    match stage {
        Some(Stage::Gone { doom }) => doom,
        _ => None,
    }
}

/// Whether a part was restored.
fn is_restored(part: Option<Held>) -> bool
    ensures { result ≡ is_restored_by part }
{
    match part {
        Some(part) => part.is_restored,
        None => false,
    }
}

/// Whether this is the active part of another transaction with this birth.
fn is_rival(tx: TxId, birth: Birth, other: TxId, part: Held) -> bool
    ensures { result ≡ (not (tx_same tx other) && is_active_stage part.stage && is_eq (birth_cmp birth part.birth)) }
{
    tx != other && part.stage == Stage::Active && birth == part.birth
}

impl<S: Store + Drop, L: Locks + Drop> ShardTx<S, L> {
    /// What votes and decisions on the transaction depend on; the LSN of its PREPARE comes from the caller.
    pub fn facts(&self, tx: TxId, prepare: Option<u64>) -> PartFacts
        ensures { result ≡ record (facts_in self.now.local self.now.durable tx) { prepare = prepare } }
    {
        let part = self.parts.get(tx);
        let stage = stage_of(part);
        PartFacts {
            state: state_of(stage),
            now: self.epoch,
            updates: self.buffer.has_standing(tx),
            restored: is_restored(part),
            doom: doom_of(stage),
            prepare,
            commit: self.deps.settled_at(tx),
            rolled: self.buffer.rolled(tx),
            undecided: self.deps.undecided(tx),
            due_lsn: self.deps.due_lsn(tx),
            durable: self.buffer.durable(),
        }
    }

    /// The transaction's part here, where it is known.
    pub fn part(&self, tx: TxId) -> Option<Held>
        ensures { result ≡ tx_get tx (self.now.local).parts }
    {
        self.parts.get(tx)
    }

    // Whether a part is a rival's.
    fn has_rival(&self, tx: TxId, birth: Birth) -> bool
        ensures { result ≡ list_any (λ p. not (tx_same tx p.0) && is_active_stage p.1.stage && is_eq (birth_cmp birth p.1.birth)) (self.now.local).parts }
    {
        self.parts
            .iter()
            .any(|(other, part)| is_rival(tx, birth, *other, *part))
    }

    /// Whether another transaction's part here is active and has this birth. It goes through all parts of the epoch.
    pub fn has_equal_active_birth(&self, tx: TxId, birth: Birth) -> bool
        ensures { result ≡ has_equal_birth_in tx birth (self.now.local).parts }
    {
        self.has_rival(tx, birth)
    }

    /// The transactions whose parts here are active or closed, which rise. Those that are gone cost nothing.
    pub fn here(&self, alloc: Global) -> Result<Vec<TxId>, Memory>
        ensures txs { IfOk result (λ txs. txs.items ≡ parts_here (self.now.local).parts) }
        ensures rising { IsStrictlySortedBy tx_cmp (parts_here (self.now.local).parts) }
    {
        match self.parts.here(alloc) {
            Ok(txs) => Ok(txs),
            Err(_) => Err(Memory),
        }
    }

    /// The LSN of the transaction's COMMIT, where one is in the log.
    pub fn commit_of(&self, tx: TxId) -> Option<u64>
        ensures { result ≡ commit_lsn (self.now.local).log tx }
    {
        self.deps.settled_at(tx)
    }

    /// Whether a COMMIT of the transaction is in the log, durable or not.
    pub fn is_committed(&self, tx: TxId) -> bool
        ensures { result ≡ committed_in (self.now.local).log tx }
    {
        self.deps.settled_at(tx).is_some()
    }

    /// Whether a part that is closed has its COMMIT in the log.
    fn is_decided(&self, tx: TxId, part: Held) -> bool
        ensures { result ≡ (not (is_closed_stage part.stage) || committed_in (self.now.local).log tx) }
    {
        part.stage != Stage::Closed || self.is_committed(tx)
    }

    /// Whether no closed part is undecided: the COMMIT of each is in the log. It goes through all parts of the epoch.
    pub fn are_decided(&self) -> bool
        ensures { result ≡ list_all (λ p. not (is_closed_stage p.1.stage) || committed_in (self.now.local).log p.0) (self.now.local).parts }
    {
        self.parts
            .iter()
            .all(|(tx, part)| self.is_decided(*tx, *part))
    }

    /// Whether no part is active. It goes through all parts of the epoch.
    pub fn are_inactive(&self) -> bool
        ensures { result ≡ list_all (λ p. not (is_active_stage p.1.stage)) (self.now.local).parts }
    {
        self.parts
            .iter()
            .all(|(_, part)| part.stage != Stage::Active)
    }
}
