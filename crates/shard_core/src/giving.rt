//! Room that nothing open may want is given back.
ghost use Rattle.std.specs.Prelude.{◌≡◌, ◌≤◌, ◌+◌, ◌*◌, IfSome, IfOk, OnOk};
ghost use Rattle.protocol_laws.specs.Open.{votes_owed as owed_in, open_work};
ghost use Rattle.shard_core.specs.Whole.{IsAtRest};

use crate::shard::ShardCore;
use clv_base::names::TxId;
use lock_table::Locks;
use ordered_store::Store;
use protocol_laws::left::left_by_open;
use std::alloc::Global;
use txn_core::Memory;

/// Three for each part that is here, one for each vote that these owe, two for each request that waits, and one more.
fn sum_of(here: usize, owed: u64, waiting: usize) -> Option<usize>
    ensures { IfSome result (λ count. count ≡ 3 * here + owed + 2 * waiting + 1) }
{
    let parts = here.checked_mul(3)?;
    let requests = waiting.checked_mul(2)?;
    parts
        .checked_add(owed as usize)?
        .checked_add(requests)?
        .checked_add(1)
}

impl<S: Store + Drop, L: Locks + Drop> ShardCore<S, L> {
    /// How many votes these transactions owe, unless the count runs out.
    fn votes_owed(&self, txs: &[TxId]) -> Option<u64>
        ensures { IfSome result (λ count. count ≡ owed_in (self.now.shard).voters txs.now) }
    {
        let mut count: u64 = 0;
        for tx in txs {
            count = match count.checked_add(self.participant.owed(*tx)) {
                Some(more) => more,
                None => return None,
            };
        }
        Some(count)
    }

    /// How many things may still be done at most, by what is open alone, and one more. It costs what is open.
    fn need(&self, alloc: Global) -> Result<usize, Memory>
        ensures { IfOk result (λ count. count ≡ open_work self.now.shard + 1) }
    {
        let here = match self.transactions.here(alloc) {
            Ok(here) => here,
            Err(memory) => return Err(memory),
        };
        let waiting = match self.coordinator.waiting(alloc) {
            Ok(waiting) => waiting,
            Err(_) => return Err(Memory),
        };
        let Some(owed) = self.votes_owed(&here) else {
            return Err(Memory);
        };
        match sum_of(here.len(), owed, waiting.len()) {
            Some(count) => Ok(count),
            None => Err(Memory),
        }
    }

    /// Gives back the room that nothing open may want: what stays for messages is 15 for each thing that may still be done, and for one more. It costs
    /// what is open. Where there is no memory to list that, the room may stay.
    pub fn give_back(&mut self, alloc: Global) -> Result<(), Memory>
        requires { IsAtRest self.old }
        ensures shard { self.new.shard ≡ self.old.shard }
        ensures room { OnOk result (self.new.room ≤ 15 * (open_work self.new.shard + 1)) }
        ensures rest { IsAtRest self.new }
    {
        left_by_open();
        self.participant.rising();
        self.transactions.kept();
        let need = match self.need(alloc) {
            Ok(need) => need,
            Err(memory) => return Err(memory),
        };
        let Some(messages) = need.checked_mul(15) else {
            return Err(Memory);
        };
        match self.transactions.trim(alloc, need) {
            Ok(()) => {}
            Err(memory) => return Err(memory),
        }
        self.outbox.trim(messages);
        self.needed = need;
        Ok(())
    }

    /// The same where there is room for more than twice what was wanted last, and for some more: so it costs little in the long run.
    pub(crate) fn give_back_much(&mut self, alloc: Global)
        requires { IsAtRest self.old }
        ensures shard { self.new.shard ≡ self.old.shard }
        ensures rest { IsAtRest self.new }
    {
        if self.outbox.room() / 15 > self.needed.saturating_mul(2).saturating_add(64) {
            match self.give_back(alloc) {
                Ok(()) => {}
                Err(_) => {}
            }
        }
    }
}
