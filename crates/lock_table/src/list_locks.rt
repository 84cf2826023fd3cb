//! A lock table that keeps its rows in one list.
ghost use Rattle.std.specs.Prelude.{◌≡◌, ◌-◌, min, [], vec_len, vec_capacity};

use crate::gaps::is_gap_held;
use crate::locks::{Locks, Memory};
use crate::rows::{Row, take_all};
use crate::{gaps, holding, meeting};
use clv_base::modes::{Anchor, Decision, Holder, Need};
use clv_base::names::{Birth, TxId};
use std::alloc::Global;

/// All locks in one list, by anchor and then transaction. Each call takes time in proportion to their number, and to that of the needs.
#[derive(Drop)]
pub struct ListLocks {
    rows: Vec<Row>,
    // Where `split_gap` gathers what it copies; empty between two calls.
    copies: Vec<Holder>,
    ghost none_gathered: { copies.items ≡ [] },
}

impl ListLocks {
    /// A table with no locks.
    pub fn new(alloc: Global) -> ListLocks
        ensures { ⟦<ListLocks as Locks>⟧.rows result ≡ [] }
    {
        ListLocks {
            rows: Vec::new(alloc),
            copies: Vec::new(alloc),
        }
    }
}

impl Locks for ListLocks {
    ghost rows = { λ s. s.rows.items };

    ghost room = { λ s _ _. min (vec_capacity s.rows - vec_len s.rows) (vec_capacity s.copies) };

    fn empty(alloc: Global) -> Result<Self, Memory> {
        Ok(ListLocks::new(alloc))
    }

    fn reserve(&mut self, _tx: TxId, _anchors: &[Anchor], count: usize) -> Result<(), Memory> {
        if self.rows.reserve(count).is_err() {
            return Err(Memory);
        }
        if self.copies.reserve(count).is_err() {
            return Err(Memory);
        }
        Ok(())
    }

    fn gap_count(&self, anchor: Anchor) -> usize {
        self.rows
            .iter()
            .filter(|row| is_gap_held(anchor, row))
            .count()
    }

    fn decide(&self, tx: TxId, birth: Birth, needs: &[Need]) -> Decision {
        meeting::decide(&self.rows, tx, birth, needs)
    }

    fn violated(&self, alloc: Global, tx: TxId, needs: &[Need]) -> Result<Vec<TxId>, Memory> {
        meeting::violated(alloc, &self.rows, tx, needs)
    }

    fn take(&mut self, tx: TxId, birth: Birth, needs: &[Need]) {
        take_all(&mut self.rows, tx, birth, needs);
    }

    fn split_gap(&mut self, lower: Anchor, new: Anchor) {
        gaps::split_gap(&mut self.rows, lower, new, &mut self.copies);
    }

    fn close_part(&mut self, tx: TxId) {
        holding::close(&mut self.rows, tx);
    }

    fn release(&mut self, tx: TxId) {
        holding::release(&mut self.rows, tx);
    }

    fn release_next(&mut self, tx: TxId) -> Option<Anchor> {
        holding::release_next(&mut self.rows, tx)
    }

    fn free(&self, anchor: Anchor) -> bool {
        holding::is_free(&self.rows, anchor)
    }

    fn holders(&self, alloc: Global, anchor: Anchor) -> Result<Vec<Holder>, Memory> {
        holding::holders(alloc, &self.rows, anchor)
    }
}
