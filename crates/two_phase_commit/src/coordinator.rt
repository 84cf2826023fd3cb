//! The coordinator.
ghost use Rattle.std.specs.Prelude.{◌≡◌, ◌<◌, ◌++◌, [], true, map, None, IfOk, IfSome, IsTrue, OnOk, OnErr, is_some};
ghost use Rattle.std.specs.List.{AllByRecursion};
ghost use Rattle.std.specs.List.Sorted.{IsStrictlySortedBy};
ghost use Rattle.std.specs.Map.{keys_of};
ghost use Rattle.std.specs.Ordering.{nat_cmp};
ghost use Rattle.clv_base.specs.declared.state.RequestState.TheVariants.{Undecided};
ghost use Rattle.clv_base.specs.declared.parts.PartFacts.{PartFacts as Facts};
ghost use Rattle.clv_base.specs.FileRules.{tx_has_spelling};
ghost use Rattle.clv_base.specs.Facts.{is_waiting};
ghost use Rattle.clv_base.specs.Orders.{nat_in, tx_cmp, tx_get, tx_put, tx_drop};
ghost use Rattle.clv_base.specs.Coordinator.{new_request, restored_requests, home_reminders, ask_answer};
ghost use Rattle.two_phase_commit.specs.Coordinated.{AreNamed, IsSpelledRuling, ruling_of, requests_by, counts_by, requests_with, done_by, requests_done, told_by, state_by};
ghost use Rattle.two_phase_commit.specs.Completed.{complete_by};
ghost use Rattle.two_phase_commit.specs.Reminding.{each_at, of_one, votes_of, dones_of};
ghost use Rattle.two_phase_commit.specs.Waiting.{waiting_in};

use crate::alone::state_of;
use crate::brief::{Brief, rests};
use crate::kept::Kept;
use crate::memory::Memory;
use crate::reminding::contains;
use crate::ruling::{answer, is_waiting as waits_here};
use crate::waiting_homes::put_request;
use clv_base::causes::Vote;
use clv_base::lists::Touched;
use clv_base::messages::Message;
use clv_base::names::TxId;
use clv_base::parts::{PartFacts, ShardList};
use clv_base::state::{RequestState, Ruling};
use std::alloc::Global;
use std::collections::BTreeMap;
use std::collections::btree_map::Iter;
use std::marker::Model;
use tx_table::{TxIndex, TxTable};

/// The requests that a shard coordinates as their home.
#[derive(Drop)]
pub struct Coordinator {
    alloc: Global,
    shard: u32,
    requests: BTreeMap<TxId, Kept>,
    /// Those that wait for a vote or an acknowledgement.
    waiting: TxIndex,
    /// All that have a request here, with what a request of one shard is asked for most: a look into a hash map tells that whatever requests are over.
    asked: TxTable<Brief>,
}

impl Model for Coordinator {
    ghost use Rattle.std.specs.Prelude.{◌≡◌};
    ghost use Rattle.two_phase_commit.specs.Coordinated.{Coordination, AreFit, AreNamed};
    ghost use Rattle.two_phase_commit.specs.Asked.{AreAsked};
    ghost use Rattle.two_phase_commit.specs.Waiting.{waits};
    ghost use Rattle.tx_table.specs.Index.{IsIndex};

    ghost Value = { Coordination };

    ghost view = { λ c. record { shard = c.shard; requests = c.requests.entries } };

    ghost invariant = { λ c. AreFit c.shard c.requests.entries × IsIndex (waits c.shard) c.requests.entries c.waiting × AreAsked c.shard c.asked.rows c.requests.entries × AreNamed c.requests.entries };
}

impl Coordinator {
    /// A home without a request. Takes no memory.
    pub fn new(alloc: Global, shard: u32) -> Self
        ensures shard { result.shard ≡ shard }
        ensures requests { result.requests ≡ [] }
    {
        Coordinator {
            alloc,
            shard,
            requests: BTreeMap::new(alloc),
            waiting: TxIndex::new(alloc),
            asked: TxTable::new(alloc),
        }
    }

    /// After a restart: the commits that it found without an END, each with its parts, are coordinated again. Where there is no memory all stays.
    pub fn restored(&mut self, alloc: Global, unended: &[(TxId, ShardList)]) -> Result<(), Memory>
        requires empty { self.old.requests ≡ [] }
        requires rising { IsStrictlySortedBy tx_cmp (keys_of unended.now) }
        requires named { AreNamed unended.now }
        ensures ok { OnOk result (self.new ≡ record self.old { requests = restored_requests unended.now }) }
        ensures err { OnErr result (self.new ≡ self.old) }
    {
        let shard = self.shard;
        let mut requests = BTreeMap::new(alloc);
        let mut waiting = TxIndex::new(alloc);
        let mut asked = TxTable::new(alloc);
        for commit in unended {
            let request = match Kept::restored(alloc, &commit.1) {
                Ok(request) => request,
                Err(memory) => return Err(memory),
            };
            match put_request(
                &mut requests,
                &mut waiting,
                &mut asked,
                shard,
                commit.0,
                request,
            ) {
                Ok(()) => {}
                Err(memory) => return Err(memory),
            }
        }
        self.requests = requests;
        self.waiting = waiting;
        self.asked = asked;
        Ok(())
    }

    /// What a question about a transaction is answered: commit where that is durable, nothing while the request stands or its COMMIT is buffered,
    /// else abort.
    pub fn on_ask(&self, tx: TxId, facts: &PartFacts) -> Option<bool>
        ensures { result ≡ ask_answer (tx_get tx self.now.requests) facts.entry.now }
    {
        answer(self.requests.get(&tx), facts)
    }

    /// How far the transaction's request is, where it has one here. Takes no memory.
    pub fn state_of(&self, tx: TxId) -> Option<RequestState>
        ensures { result ≡ state_by (tx_get tx self.now.requests) }
    {
        match self.asked.get(tx) {
            None => None,
            Some(Brief::Alone(stage)) => Some(state_of(stage)),
            Some(Brief::Other) => match self.requests.get(&tx) {
                Some(request) => Some(request.state()),
                None => None,
            },
        }
    }

    /// The shards that are told of a commit of the transaction: none where it has no request here, and no shard where that isn't committed.
    pub fn told(&self, tx: TxId) -> Option<ShardList>
        ensures { result ≡ told_by (tx_get tx self.now.requests) }
    {
        match self.asked.get(tx) {
            None => None,
            Some(Brief::Alone(_)) => Some(ShardList::new()),
            Some(Brief::Other) => match self.requests.get(&tx) {
                Some(request) => Some(request.told()),
                None => None,
            },
        }
    }

    /// The requests, by rising transactions.
    pub fn requests(&self) -> Iter<'_, TxId, Kept>
        ensures { result ≡ self.now.requests }
    {
        self.requests.iter()
    }

    /// The transactions with a request here, which rise.
    pub fn transactions(&self, alloc: Global) -> Result<Vec<TxId>, Memory>
        ensures txs { IfOk result (λ txs. txs.items ≡ keys_of self.now.requests) }
        ensures rising { IsStrictlySortedBy tx_cmp (keys_of self.now.requests) }
    {
        let mut txs = Vec::new(alloc);
        for (tx, _) in self.requests.iter() {
            match txs.push(*tx) {
                Ok(()) => {}
                Err(_) => return Err(Memory),
            }
        }
        Ok(txs)
    }

    /// The transactions whose requests wait for a vote or an acknowledgement, which rise. Those that are over cost nothing.
    pub fn waiting(&self, alloc: Global) -> Result<Vec<TxId>, Memory>
        ensures txs { IfOk result (λ txs. txs.items ≡ waiting_in self.now.shard self.now.requests) }
        ensures rising { IsStrictlySortedBy tx_cmp (waiting_in self.now.shard self.now.requests) }
    {
        let _all = self.requests.len();
        match self.waiting.to_vec(alloc) {
            Ok(txs) => Ok(txs),
            Err(_) => Err(Memory),
        }
    }

    /// A Prepare for each vote that the transaction's request misses, if it has one.
    fn ask_of(&self, tx: TxId, list: &mut Vec<Message>) -> Result<(), Memory>
        ensures { OnOk result (list.new.items ≡ list.old.items ++ of_one (votes_of self.now.shard) tx (tx_get tx self.now.requests)) }
    {
        match self.requests.get(&tx) {
            Some(request) => request.remind_votes(self.shard, tx, list),
            None => Ok(()),
        }
    }

    /// A Prepare for each vote that the request of one of these transactions misses.
    fn ask_for_votes(&self, txs: &[TxId], list: &mut Vec<Message>) -> Result<(), Memory>
        ensures { OnOk result (list.new.items ≡ list.old.items ++ each_at (votes_of self.now.shard) self.now.requests txs.now) }
    {
        for tx in txs {
            self.ask_of(*tx, list)?;
        }
        Ok(())
    }

    /// A Decide for each acknowledgement that the request of one of these transactions misses, where its COMMIT is durable.
    fn tell_commits(
        &self,
        txs: &[TxId],
        durable: &[TxId],
        list: &mut Vec<Message>,
    ) -> Result<(), Memory>
        requires rising { IsStrictlySortedBy tx_cmp durable.now }
        ensures { OnOk result (list.new.items ≡ list.old.items ++ each_at (dones_of self.now.shard durable.now) self.now.requests txs.now) }
    {
        for tx in txs {
            if contains(durable, tx) {
                if let Some(request) = self.requests.get(tx) {
                    request.remind_dones(self.shard, *tx, list)?;
                }
            }
        }
        Ok(())
    }

    /// What the home reminds of: a Prepare for each missing vote of an undecided request, then a Decide for each missing acknowledgement of
    /// these transactions, whose COMMITs are durable. It goes over the requests that wait.
    pub fn reminders(&self, alloc: Global, durable: &[TxId]) -> Result<Vec<Message>, Memory>
        requires rising { IsStrictlySortedBy tx_cmp durable.now }
        ensures { IfOk result (λ list. list.items ≡ home_reminders self.now.shard self.now.requests durable.now) }
    {
        let _all = self.requests.len();
        let waiting = match self.waiting(alloc) {
            Ok(waiting) => waiting,
            Err(memory) => return Err(memory),
        };
        let mut list = Vec::new(alloc);
        self.ask_for_votes(&waiting, &mut list)?;
        self.tell_commits(&waiting, durable, &mut list)?;
        Ok(list)
    }

    /// Whether a vote that comes would count.
    pub fn awaits_vote(&self, tx: TxId, from: u32) -> bool
        ensures { result ≡ counts_by self.now.shard from (tx_get tx self.now.requests) }
    {
        match self.requests.get(&tx) {
            Some(request) => request.counts_vote(self.shard, from),
            None => false,
        }
    }

    /// Whether an acknowledgement that comes would count.
    pub fn awaits_done(&self, tx: TxId, from: u32) -> bool
        ensures { result ≡ done_by from (tx_get tx self.now.requests) }
    {
        match self.requests.get(&tx) {
            Some(request) => request.counts_done(from),
            None => false,
        }
    }

    /// A vote came: whether it counts. Takes no memory.
    pub fn on_vote(&mut self, tx: TxId, from: u32, vote: Vote) -> bool
        ensures taken { result ≡ counts_by self.old.shard from (tx_get tx self.old.requests) }
        ensures requests { self.new ≡ record self.old { requests = requests_with tx self.old.shard from vote (tx_get tx self.old.requests) self.old.requests } }
    {
        let shard = self.shard;
        let Some(request) = self.requests.get_mut(&tx) else {
            return false;
        };
        request.take_vote(shard, from, vote)
    }

    /// An acknowledgement came: whether it counts. Takes no memory.
    pub fn on_done(&mut self, tx: TxId, from: u32) -> bool
        ensures taken { result ≡ done_by from (tx_get tx self.old.requests) }
        ensures requests { self.new ≡ record self.old { requests = requests_done tx from (tx_get tx self.old.requests) self.old.requests } }
    {
        let shard = self.shard;
        let Some(request) = self.requests.get_mut(&tx) else {
            return false;
        };
        let taken = request.take_done(shard, from);
        let stays = request.waits(shard);
        self.waiting.keep_if(tx, stays);
        taken
    }

    /// Whether nothing is due of the transaction at its home, as is plain without its request: `waits` is whether its part here is closed and
    /// undecided, `doomed` whether an abort took that away.
    pub fn rests(&self, tx: TxId, waits: bool, doomed: bool) -> bool
        ensures { IsTrue result → (f : Facts) → is_waiting f ≡ waits → is_some f.doom ≡ doomed → ruling_of self.now.shard tx f (tx_get tx self.now.requests) ≡ None }
    {
        match self.asked.get(tx) {
            None => true,
            Some(brief) => rests(brief, waits, doomed),
        }
    }

    /// What is due of a transaction at its home; each ruling is given once and kept. Takes no memory.
    pub fn decision_due(&mut self, tx: TxId, facts: &PartFacts) -> Option<Ruling>
        ensures ruling { result ≡ ruling_of self.old.shard tx facts.entry.now (tx_get tx self.old.requests) }
        ensures requests { self.new ≡ record self.old { requests = requests_by tx (tx_get tx self.old.requests) result self.old.requests } }
        ensures spelled { IfSome result (IsSpelledRuling tx) }
    {
        if self.rests(tx, waits_here(facts), facts.doom.is_some()) {
            return None;
        }
        let shard = self.shard;
        let Some(request) = self.requests.get_mut(&tx) else {
            return None;
        };
        let ruling = request.rule(shard, tx, facts);
        let stays = request.waits(shard);
        let brief = request.brief(shard);
        self.asked.replace(tx, brief);
        self.waiting.keep_if(tx, stays);
        ruling
    }

    /// A request is kept, undecided, with the shards that it touched and their epochs. Where there is no memory all stays.
    pub fn ask_commit(&mut self, tx: TxId, touched: Touched) -> Result<(), Memory>
        requires name { tx_has_spelling tx ≡ true }
        requires rising { IsStrictlySortedBy nat_cmp (map (λ t. t.0) touched) }
        requires low { AllByRecursion (λ t. t.0 < 16) touched }
        requires own { nat_in self.old.shard (map (λ t. t.0) touched) ≡ true }
        ensures ok { OnOk result (self.new ≡ record self.old { requests = tx_put tx (new_request touched Undecided) self.old.requests }) }
        ensures err { OnErr result (self.new ≡ self.old) }
        ensures keys { OnOk result (IsStrictlySortedBy tx_cmp (keys_of self.new.requests)) }
    {
        let request = match Kept::asked(self.alloc, touched) {
            Ok(request) => request,
            Err(memory) => return Err(memory),
        };
        put_request(
            &mut self.requests,
            &mut self.waiting,
            &mut self.asked,
            self.shard,
            tx,
            request,
        )
    }

    /// Whether nothing more is asked or told of the transaction's request, where its COMMIT is durable: of one shard alone, or a commit with no part, or
    /// one whose END is written. False where it has none here.
    pub fn is_complete(&self, tx: TxId) -> bool
        ensures { result ≡ complete_by self.now.shard (tx_get tx self.now.requests) }
    {
        match self.requests.get(&tx) {
            Some(request) => request.is_complete(self.shard),
            None => false,
        }
    }

    /// The transaction's request, if it has one, is kept no more, and given away. Takes no memory.
    pub fn forget(&mut self, tx: TxId) -> Option<Kept>
        ensures given { result ≡ tx_get tx self.old.requests }
        ensures requests { self.new ≡ record self.old { requests = tx_drop tx self.old.requests } }
        ensures keys { IsStrictlySortedBy tx_cmp (keys_of self.new.requests) }
    {
        let _all = self.requests.len();
        let request = self.requests.remove(&tx);
        self.waiting.keep_if(tx, false);
        self.asked.remove(tx);
        request
    }
}
