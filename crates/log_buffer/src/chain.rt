//! Where the writes of each transaction stand: for a transaction its newest one, how many it has and where it last took one back, and for each
//! write the one before it.

ghost use Rattle.std.specs.Prelude.{◌≡◌, None, slice_index_or};
ghost use Rattle.log_buffer.specs.Chained.{known_by, with_write, with_undo};

use crate::measured::Link;
use clv_base::names::TxId;
use std::alloc::{AllocError, Global};
use tx_table::TxTable;

/// The writes of a transaction that stand: the newest, and how many they are; and the place of the last record that compensates one.
#[derive(Clone, Copy)]
pub(crate) struct Written {
    newest: Option<usize>,
    standing: usize,
    undone: Option<usize>,
}

/// For each record the write that it stands upon, and for each transaction that wrote what is known of its writes.
#[derive(Drop)]
pub(crate) struct Chain {
    below: Vec<Option<usize>>,
    written: TxTable<Written>,
}

fn known_of(row: Option<Written>) -> Written
    ensures { result ≡ known_by row }
{
    row.unwrap_or(Written {
        newest: None,
        standing: 0,
        undone: None,
    })
}

impl Written {
    ghost use Rattle.std.specs.Prelude.{◌≡◌, ◌<◌, ◌+◌, ◌^◌};

    /// With one more write, at this place.
    fn with_write(self, at: usize) -> Written
        requires { self.standing + 1 < 2 ^ 64 }
        ensures { result ≡ with_write at self }
    {
        Written {
            newest: Some(at),
            standing: self.standing + 1,
            undone: self.undone,
        }
    }

    /// Without its newest write, which the record at this place compensates; that one is the newest now.
    fn with_undo(self, at: usize, newest: Option<usize>) -> Written
        ensures { result ≡ with_undo at newest self }
    {
        Written {
            newest,
            standing: self.standing.saturating_sub(1),
            undone: Some(at),
        }
    }
}

fn entry_at(entries: &[Option<usize>], at: usize) -> Option<usize>
    ensures { result ≡ slice_index_or entries.now at None }
{
    if at < entries.len() {
        entries[at]
    } else {
        None
    }
}

impl Chain {
    ghost use Rattle.std.specs.Prelude.{◌≡◌, ◌≤◌, ◌<◌, ◌+◌, [], ◌∷◌, ◌++◌, length, IfOk, OnOk, List, vec_capacity};
    ghost use Rattle.clv_base.specs.declared.names.TxId.{TxId as Tx};
    ghost use Rattle.log_buffer.specs.declared.measured.Link.{Link as LinkTo};
    ghost use Rattle.log_buffer.specs.Chains.{first, others, places, last_undo};
    ghost use Rattle.log_buffer.specs.Chained.{IsChainOf, chain_room, written_in};

    /// The chain of no records. Takes no memory.
    pub(crate) fn new(alloc: Global) -> Chain
        ensures { IsChainOf result [] }
    {
        Chain {
            below: Vec::new(alloc),
            written: TxTable::new(alloc),
        }
    }

    /// The chain of no records, with places for so many of them, but none for writers.
    pub(crate) fn with_places(alloc: Global, count: usize) -> Result<Chain, AllocError>
        ensures chain { IfOk result (λ c. IsChainOf c []) }
        ensures room { IfOk result (λ c. count ≤ vec_capacity c.below) }
    {
        Ok(Chain {
            below: Vec::with_capacity(alloc, count)?,
            written: TxTable::new(alloc),
        })
    }

    /// Makes room for so many records more.
    pub(crate) fn reserve(&mut self, count: usize) -> Result<(), AllocError>
        ensures ok { OnOk result (count ≤ chain_room self.new) }
        ensures room { chain_room self.old ≤ chain_room self.new }
        ensures same { (links : List LinkTo) → IsChainOf self.old links → IsChainOf self.new links }
    {
        self.below.reserve(count)?;
        self.written.reserve(count)
    }

    /// What is known of the transaction's writes.
    fn known(&self, tx: TxId) -> Written
        ensures { (links : List LinkTo) → IsChainOf self.now links → result ≡ written_in tx links }
    {
        known_of(self.written.get(tx))
    }

    /// How many writes of the transaction stand.
    pub(crate) fn count(&self, tx: TxId) -> usize
        ensures { (links : List LinkTo) → IsChainOf self.now links → result ≡ length (places tx links) }
    {
        self.known(tx).standing
    }

    /// The last record that compensates a write of the transaction.
    pub(crate) fn undone(&self, tx: TxId) -> Option<usize>
        ensures { (links : List LinkTo) → IsChainOf self.now links → result ≡ last_undo tx links }
    {
        self.known(tx).undone
    }

    /// The newest write of the transaction that stands.
    pub(crate) fn newest(&self, tx: TxId) -> Option<usize>
        ensures { (links : List LinkTo) → IsChainOf self.now links → result ≡ first (places tx links) }
    {
        self.known(tx).newest
    }

    /// The write of the transaction that stands below its newest one.
    pub(crate) fn second(&self, tx: TxId) -> Option<usize>
        ensures { (links : List LinkTo) → IsChainOf self.now links → result ≡ first (others (places tx links)) }
    {
        match self.newest(tx) {
            None => None,
            Some(newest) => entry_at(&self.below, newest),
        }
    }

    /// One more record.
    pub(crate) fn push(&mut self, link: Link)
        requires room { 0 < chain_room self.old }
        requires chain { (links : List LinkTo) × IsChainOf self.old links }
        ensures chain { (links : List LinkTo) → IsChainOf self.old links → IsChainOf self.new (links ++ link ∷ []) }
        ensures room { chain_room self.old ≤ chain_room self.new + 1 }
    {
        let at = self.below.len();
        let below = match link {
            Link::Writes(tx) => {
                let known = self.known(tx);
                self.written.set(tx, known.with_write(at));
                known.newest
            }
            Link::Undoes(tx) => {
                let known = self.known(tx);
                let newest = self.second(tx);
                self.written.set(tx, known.with_undo(at, newest));
                None
            }
            Link::Neither => None,
        };
        self.below.push_reserved(below);
    }

    /// One more record, for which room is made where there is none.
    pub(crate) fn add(&mut self, link: Link) -> Result<(), AllocError>
        requires { (links : List LinkTo) × IsChainOf self.old links }
        ensures { OnOk result ((links : List LinkTo) → IsChainOf self.old links → IsChainOf self.new (links ++ link ∷ [])) }
    {
        self.reserve(1)?;
        self.push(link);
        Ok(())
    }
}
