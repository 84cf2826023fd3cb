//! The participant.
ghost use Rattle.std.specs.Prelude.{◌≡◌, [], IfOk, IfSome, OnOk, OnErr};
ghost use Rattle.std.specs.List.Sorted.{IsStrictlySortedBy};
ghost use Rattle.std.specs.Map.{keys_of};
ghost use Rattle.clv_base.specs.Orders.{tx_cmp, tx_get};
ghost use Rattle.clv_base.specs.Participant.{asked_voter, restored_voter as voter_restored, restored_voters, voters_asked, taken_by, asks as asked_by};
ghost use Rattle.two_phase_commit.specs.Voting.{asks_by, vote_of, voters_by, home_by, owed_by};

use crate::deciding::taken;
use crate::memory::Memory;
use crate::voting::{asks, due_vote, voted};
use clv_base::causes::Vote;
use clv_base::messages::Message;
use clv_base::names::TxId;
use clv_base::parts::PartFacts;
use clv_base::state::{Taken, Voter};
use std::alloc::Global;
use std::collections::BTreeMap;
use std::marker::Model;

/// What a shard keeps of the transactions that it is asked to vote on, or that a restart found in doubt.
#[derive(Drop)]
pub struct Participant {
    shard: u32,
    voters: BTreeMap<TxId, Voter>,
}

impl Model for Participant {
    ghost use Rattle.two_phase_commit.specs.Voting.{Voting};

    ghost Value = { Voting };

    ghost view = { λ p. record { shard = p.shard; voters = p.voters.entries } };
}

impl Participant {
    /// A participant that no transaction has asked. Takes no memory.
    pub fn empty(alloc: Global, shard: u32) -> Self
        ensures shard { result.shard ≡ shard }
        ensures voters { result.voters ≡ [] }
    {
        Participant {
            shard,
            voters: BTreeMap::new(alloc),
        }
    }

    /// The participant of a restart, which found these transactions in doubt, each with its home.
    pub fn new(alloc: Global, shard: u32, restored: &[(TxId, u32)]) -> Result<Self, Memory>
        requires rising { IsStrictlySortedBy tx_cmp (keys_of restored.now) }
        ensures shard { IfOk result (λ p. p.shard ≡ shard) }
        ensures voters { IfOk result (λ p. p.voters ≡ restored_voters restored.now) }
    {
        let mut voters = BTreeMap::new(alloc);
        for doubtful in restored {
            match voters.insert(doubtful.0, restored_voter(doubtful.1)) {
                Ok(_) => {}
                Err(_) => return Err(Memory),
            }
        }
        Ok(Participant { shard, voters })
    }

    /// A Prepare came: one vote more is owed. Where there is no memory all stays.
    pub fn on_prepare(&mut self, tx: TxId, home: u32, seen: u64) -> Result<(), Memory>
        ensures ok { OnOk result (self.new ≡ record self.old { voters = voters_asked tx home seen self.old.voters }) }
        ensures err { OnErr result (self.new ≡ self.old) }
        ensures rising { OnOk result (IsStrictlySortedBy tx_cmp (keys_of self.old.voters)) }
    {
        let voter = match asked(self.voters.get(&tx).copied(), home, seen) {
            Some(voter) => voter,
            None => return Err(Memory),
        };
        match self.voters.insert(tx, voter) {
            Ok(_) => Ok(()),
            Err(_) => Err(Memory),
        }
    }

    /// The vote that is due, once for each Prepare that came; the one that is given first is given again. Takes no memory.
    pub fn vote_due(&mut self, tx: TxId, facts: &PartFacts) -> Option<Vote>
        ensures vote { result ≡ vote_of facts.entry.now (tx_get tx self.old.voters) }
        ensures voters { self.new ≡ record self.old { voters = voters_by tx (tx_get tx self.old.voters) result self.old.voters } }
    {
        let voter = match self.voters.get(&tx).copied() {
            Some(voter) => voter,
            None => return None,
        };
        let vote = match due_vote(facts, voter) {
            Some(vote) => vote,
            None => return None,
        };
        let Ok(_) = self.voters.insert(tx, voted(voter, vote)) else {
            unreachable!()
        };
        Some(vote)
    }

    /// What a decision that comes is to the part: it waited for it, or it is done already, or it is stale.
    pub fn take_decision(&self, commit: bool, facts: &PartFacts) -> Taken
        ensures { result ≡ taken_by facts.entry.now commit }
    {
        taken(facts, commit)
    }

    /// The home of a transaction that is a voter.
    pub fn home_of(&self, tx: TxId) -> Option<u32>
        ensures { result ≡ home_by (tx_get tx self.now.voters) }
    {
        match self.voters.get(&tx) {
            Some(voter) => Some(voter.home),
            None => None,
        }
    }

    /// How many votes the transaction owes: one for each Prepare that came, less those that were given.
    pub fn owed(&self, tx: TxId) -> u64
        ensures { result ≡ owed_by (tx_get tx self.now.voters) }
    {
        match self.voters.get(&tx) {
            Some(voter) => voter.owed,
            None => 0,
        }
    }

    /// Whether the part asks its home how it was decided: it is a voter's, closed and undecided, and voted yes or was restored.
    pub fn asks_home(&self, tx: TxId, facts: &PartFacts) -> bool
        ensures { result ≡ asks_by facts.entry.now (tx_get tx self.now.voters) }
    {
        match self.voters.get(&tx) {
            Some(voter) => asks(facts, *voter),
            None => false,
        }
    }

    /// A law: the transactions that are voters rise.
    pub fn rising(&self)
        ensures { IsStrictlySortedBy tx_cmp (keys_of self.now.voters) }
    {
        let _count = self.voters.len();
    }

    /// An Ask of each of these transactions that is a voter, to its home.
    pub fn asks(&self, alloc: Global, waiting: &[TxId]) -> Result<Vec<Message>, Memory>
        ensures { IfOk result (λ list. list.items ≡ asked_by self.now.shard self.now.voters waiting.now) }
    {
        let mut list = Vec::new(alloc);
        for tx in waiting {
            if let Some(to) = self.home_of(*tx) {
                match list.push(Message::Ask {
                    to,
                    tx: *tx,
                    from: self.shard,
                }) {
                    Ok(()) => {}
                    Err(_) => return Err(Memory),
                }
            }
        }
        Ok(list)
    }
}

/// The voter whom a restart found in doubt: it owes no vote until its home asks.
fn restored_voter(home: u32) -> Voter
    ensures { result ≡ voter_restored home }
{
    Voter {
        home,
        seen: 0,
        owed: 0,
        vote: None,
    }
}

/// The voter who is asked once more, unless the count of votes ran out.
fn asked(voter: Option<Voter>, home: u32, seen: u64) -> Option<Voter>
    ensures { IfSome result (λ v. v ≡ asked_voter home seen voter) }
{
    match voter {
        None => Some(Voter {
            home,
            seen,
            owed: 1,
            vote: None,
        }),
        Some(voter) => match voter.owed.checked_add(1) {
            Some(owed) => Some(Voter { owed, ..voter }),
            None => None,
        },
    }
}
