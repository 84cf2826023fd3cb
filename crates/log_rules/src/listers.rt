// Who lists whom in a PREPARE.

ghost use Rattle.std.specs.Prelude.{◌≡◌};

use clv_base::names::TxId;
use std::alloc::{AllocError, Global};
use std::collections::BTreeMap;

// A transaction that lists another one, and the place of the one that listed it before.
#[derive(Clone, Copy)]
pub struct Lister {
    pub tx: TxId,
    pub next: Option<usize>,
}

// All listers, in the order in which they came, and the place of the last one of each transaction.
#[derive(Drop)]
pub struct Listers {
    pub all: Vec<Lister>,
    pub last: BTreeMap<TxId, usize>,
}

impl Listers {
    ghost use Rattle.std.specs.Prelude.{◌≡◌, ℕ, [], ◌∷◌, ◌++◌, length, None, Some, IfOk, OnOk, if◌then◌else◌, ◌||◌, ◌&&◌};
    ghost use Rattle.clv_base.specs.declared.names.TxId.{TxId as Tx};
    ghost use Rattle.clv_base.specs.Orders.{tx_same, tx_in};
    ghost use Rattle.log_rules.specs.Listers.{last_of, lister_at, listers_from, listers_in, ListsOne, ListsAll};

    pub fn new(alloc: Global) -> Self
        ensures all { result.all.items ≡ [] }
        ensures last { (t : Tx) → last_of result t ≡ None }
    {
        Listers {
            all: Vec::new(alloc),
            last: BTreeMap::new(alloc),
        }
    }

    fn last_of(&self, listed: TxId) -> Option<usize>
        ensures { result ≡ last_of self.now listed }
    {
        self.last.get(&listed).copied()
    }

    fn at(&self, place: Option<usize>) -> Option<Lister>
        ensures { result ≡ lister_at self.now.all.items place }
    {
        self.all.get(place?).copied()
    }

    // The transaction lists another one.
    fn add(&mut self, tx: TxId, listed: TxId) -> Result<(), AllocError>
        ensures { OnOk result (ListsOne self.old self.new tx listed) }
    {
        let place = self.all.len();
        let next = self.last_of(listed);
        self.all.push(Lister { tx, next })?;
        self.last.insert(listed, place)?;
        Ok(())
    }

    // The transaction lists these.
    pub fn add_all(&mut self, tx: TxId, listed: &[TxId]) -> Result<(), AllocError>
        ensures { OnOk result (ListsAll self.old self.new tx listed.now) }
    {
        for p in listed {
            self.add(tx, *p)?;
        }
        Ok(())
    }

    // Who lists the transaction.
    pub fn of(&self, alloc: Global, listed: TxId) -> Result<Vec<TxId>, AllocError>
        ensures { IfOk result (λ v. v.items ≡ listers_in self.now listed) }
    {
        let mut txs = Vec::new(alloc);
        let mut place = self.last_of(listed);
        // Each step goes to an earlier place, so there are no more steps than places.
        for _step in 0..self.all.len() {
            let Some(lister) = self.at(place) else {
                return Ok(txs);
            };
            txs.push(lister.tx)?;
            place = lister.next;
        }
        Ok(txs)
    }
}
