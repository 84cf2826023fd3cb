//! The core.

use due_step::Outbox;
use lock_table::Locks;
use ordered_store::Store;
use std::marker::Model;
use two_phase_commit::{Coordinator, Participant};
use tx_table::{Candidates, TxTable};
use txn_core::ShardTx;

/// The parts of one shard, in one epoch.
#[derive(Drop)]
pub struct ShardCore<S: Store + Drop, L: Locks + Drop> {
    pub(crate) shard: u32,
    pub(crate) run: u32,
    pub(crate) transactions: ShardTx<S, L>,
    pub(crate) participant: Participant,
    pub(crate) coordinator: Coordinator,
    /// The LSN of each PREPARE.
    pub(crate) prepares: TxTable<u64>,
    pub(crate) outbox: Outbox,
    pub(crate) candidates: Candidates,
    /// For how many things there was to be room when room was given back last.
    pub(crate) needed: usize,
}

impl<S: Store + Drop, L: Locks + Drop> Model for ShardCore<S, L> {
    ghost use Rattle.shard_core.specs.Core.{Core, seen_as};
    ghost use Rattle.shard_core.specs.Whole.{IsWhole};

    ghost Value = { Core };

    ghost view = { λ s. record { shard = seen_as s.run s.transactions s.participant s.coordinator s.outbox; candidates = s.candidates.txs; limit = s.candidates.limit; room = s.outbox.room } };

    ghost invariant = { λ s. IsWhole s.shard s.prepares.rows s.transactions s.participant s.coordinator s.outbox s.candidates (seen_as s.run s.transactions s.participant s.coordinator s.outbox) };
}
