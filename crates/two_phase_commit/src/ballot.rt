//! The votes on a request.
ghost use Rattle.std.specs.Prelude.{◌≡◌, is_none};
ghost use Rattle.std.specs.List.{list_all};
ghost use Rattle.clv_base.specs.Coordinator.{no_by};

use crate::memory::Memory;
use clv_base::causes::{AbortCause, Vote};
use std::alloc::Global;
use std::marker::Model;

/// Votes by shard, each at its place. There are places for those shards alone that may vote.
#[derive(Drop)]
pub(crate) struct Ballot {
    given: Vec<Option<Vote>>,
}

impl Model for Ballot {
    ghost use Rattle.std.specs.Prelude.{◌≤◌, length};
    ghost use Rattle.clv_base.specs.Arrays.{present_from};
    ghost use Rattle.two_phase_commit.specs.Ballots.{Ballot};

    ghost Value = { Ballot };

    ghost view = { λ b. record { votes = present_from 0 b.given.items; places = length b.given.items } };

    ghost invariant = { λ b. length b.given.items ≤ 16 };
}

impl Ballot {
    ghost use Rattle.std.specs.Prelude.{◌≡◌, ◌≤◌, ◌<◌, ◌==◌, [], IfOk, length};
    ghost use Rattle.std.specs.Ordering.{nat_cmp};
    ghost use Rattle.std.specs.BTreeMap.{insert_entry};
    ghost use Rattle.clv_base.specs.Coordinator.{vote_from, first_no as first_no_of};

    /// No vote, and no place for one. Takes no memory.
    pub(crate) fn new(alloc: Global) -> Self
        ensures votes { result.votes ≡ [] }
        ensures places { result.places ≡ 0 }
    {
        Ballot {
            given: Vec::new(alloc),
        }
    }

    /// No vote, and places for those of so many shards.
    pub(crate) fn with_places(alloc: Global, count: usize) -> Result<Self, Memory>
        requires { count ≤ 16 }
        ensures votes { IfOk result (λ b. b.votes ≡ []) }
        ensures places { IfOk result (λ b. b.places ≡ count) }
    {
        match vec![in alloc; None; count] {
            Ok(given) => Ok(Ballot { given }),
            Err(_) => Err(Memory),
        }
    }

    /// The vote of a shard, if it is there.
    pub(crate) fn get(&self, shard: u32) -> Option<Vote>
        ensures { result ≡ vote_from shard self.now.votes }
    {
        match self.given.get(shard as usize) {
            Some(vote) => *vote,
            None => None,
        }
    }

    /// The vote of a shard with a place is there from now on. Takes no memory.
    pub(crate) fn set(&mut self, shard: u32, vote: Vote)
        requires { shard < self.old.places }
        ensures votes { self.new.votes ≡ insert_entry nat_cmp self.old.votes shard vote }
        ensures places { self.new.places ≡ self.old.places }
    {
        self.given[shard as usize] = Some(vote);
    }

    /// Whether nobody has voted.
    pub(crate) fn is_empty(&self) -> bool
        ensures { result ≡ (length self.now.votes == 0) }
    {
        are_missing(&self.given)
    }

    /// The cause that the first no is, by shards.
    pub(crate) fn first_no(&self) -> Option<AbortCause>
        ensures { result ≡ first_no_of self.now.votes }
    {
        for shard in 0..self.given.len() {
            let cause = no_of(shard as u32, self.given[shard]);
            if cause.is_some() {
                return cause;
            }
        }
        None
    }
}

/// Whether no place has a vote.
fn are_missing(given: &[Option<Vote>]) -> bool
    ensures { result ≡ list_all (λ vote. is_none vote) given.now }
{
    given.iter().all(|vote| vote.is_none())
}

/// The cause that a vote is, where it is a no.
fn no_of(shard: u32, vote: Option<Vote>) -> Option<AbortCause>
    ensures { result ≡ no_by shard vote }
{
    match vote {
        Some(Vote::No(why)) => Some(AbortCause::NoVote { shard, why }),
        _ => None,
    }
}
