//! A store in blocks.
ghost use Rattle.std.specs.Prelude.{◌≡◌, ◌≤◌, ◌+◌, [], ℕ, ◌*◌, ◌^◌, length, true, map, IfOk, vec_len, vec_capacity};
ghost use Rattle.std.specs.Ordering.{nat_cmp};
ghost use Rattle.std.specs.FinMap.{is_sorted};
ghost use Rattle.clv_base.specs.Needs.{found_at};
ghost use Rattle.ordered_store.specs.InTurn.{live_in_turn};
ghost use Rattle.ordered_store.specs.Blocks.{Chained, Chained-prop, Sized, Sized-prop, Empties, Empties-prop, flat, room_of};

use crate::Store;
use crate::block::{Block, MOST};
use crate::block_finding::{anchor_below, get};
use crate::block_ranging::{add_live, between};
use crate::block_writing::{put, take};
use crate::counting::get_counting;
use crate::growing::make_room;
use crate::rows::Row;
use crate::steps::Steps;
use clv_base::modes::{Anchor, Found};
use clv_base::values::Value;
use std::alloc::{AllocError, Global};
use std::sync::ledger::Ledger;

/// The records in a rising list of blocks of 1 to 64, each with the least of its keys; one empty block where there is no record.
/// A look-up is two binary searches; a new key moves what lies above it in its block, and where the block is cut, the blocks above.
#[derive(Drop)]
pub struct BlockStore {
    alloc: Global,
    blocks: Vec<Block>,
    spares: Vec<Vec<Row>>,
    ghost chained: { Chained blocks.items } by { Chained-prop blocks.items },
    ghost rising: { is_sorted nat_cmp (flat blocks.items) ≡ true },
    ghost sized: { Sized blocks.items } by { Sized-prop blocks.items },
    ghost empties: { Empties spares.items } by { Empties-prop spares.items },
    ghost slots: { vec_len blocks + vec_len spares ≤ vec_capacity blocks },
}

impl BlockStore {
    /// A store with no records.
    pub fn new(alloc: Global) -> Result<BlockStore, AllocError>
        ensures { IfOk result (λ store. ⟦<BlockStore as Store>⟧.records store ≡ []) }
    {
        let rows = Vec::with_capacity(alloc, MOST + 1)?;
        let mut blocks = Vec::new(alloc);
        blocks.push(Block { fence: 0, rows })?;
        Ok(BlockStore {
            alloc,
            blocks,
            spares: Vec::new(alloc),
        })
    }
}

impl BlockStore {
    /// The live pairs of these stores, store by store, each one's by rising keys. Takes time linear in the records.
    pub fn live_pairs(alloc: Global, stores: &[BlockStore]) -> Result<Vec<(u64, Value)>, AllocError>
        ensures { IfOk result (λ pairs. pairs.items ≡ live_in_turn (map (λ s. ⟦<BlockStore as Store>⟧.records s) stores.now)) }
    {
        let mut pairs = Vec::new(alloc);
        for store in stores {
            add_live(&mut pairs, &store.blocks)?;
        }
        Ok(pairs)
    }

    /// The least key of each block.
    pub fn fences(&self, alloc: Global) -> Result<Vec<u64>, AllocError>
        ensures { IfOk result (λ fences. fences.items ≡ map (λ b. b.fence) self.now.blocks.items) }
    {
        self.blocks.iter().map(|block| block.fence).collect(alloc)
    }

    /// What stands at a key, as `get` says, in at most s + 7 comparisons of keys, where 2 ^ s is at most twice the number of blocks and one.
    pub fn get_counting<L: Ledger>(&self, key: u64, steps: &mut Steps<L>) -> Found
        ensures found { result ≡ found_at key (⟦<BlockStore as Store>⟧.records self.now) }
        ensures cost { (s : ℕ) × ((2 ^ s ≤ 2 * length self.now.blocks.items + 1) × (steps.new ≤ steps.old + s + 7)) }
    {
        get_counting(&self.blocks, key, steps)
    }
}

impl Store for BlockStore {
    ghost records = { λ s. flat s.blocks.items };

    ghost room = { λ s. room_of s.blocks.items (vec_len s.spares) };

    fn empty(alloc: Global) -> Result<Self, AllocError> {
        BlockStore::new(alloc)
    }

    fn get(&self, key: u64) -> Found {
        get(&self.blocks, key)
    }

    fn reserve(&mut self, count: usize) -> Result<(), AllocError> {
        make_room(self.alloc, &mut self.blocks, &mut self.spares, count)
    }

    fn set(&mut self, key: u64, value: Value) -> Option<Value> {
        put(&mut self.blocks, &mut self.spares, key, Some(value))
    }

    fn hide(&mut self, key: u64) {
        put(&mut self.blocks, &mut self.spares, key, None);
    }

    fn purge(&mut self, key: u64) {
        take(&mut self.blocks, key);
    }

    fn anchor_of(&self, key: u64) -> Anchor {
        anchor_below(&self.blocks, key)
    }

    fn range(&self, alloc: Global, low: u64, high: u64) -> Result<Vec<(u64, Found)>, AllocError> {
        between(alloc, &self.blocks, low, high)
    }

    ghost rising = { λ s. s.rising };
}
