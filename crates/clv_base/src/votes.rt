// Votes, read and kept.

ghost use Rattle.std.specs.Prelude.{◌≡◌, ◌<◌, []};
ghost use Rattle.std.specs.Ordering.{nat_cmp};
ghost use Rattle.std.specs.BTreeMap.{insert_entry};
ghost use Rattle.clv_base.specs.Coordinator.{vote_from, first_no as first_no_of, no_by};

use crate::causes::{AbortCause, Vote};
use crate::lists::Votes;

impl Votes {
    /// No vote.
    pub fn new() -> Self
        ensures { result ≡ [] }
    {
        Votes { given: [None; 16] }
    }

    /// The vote of a shard, if it is there.
    pub fn get(&self, shard: u32) -> Option<Vote>
        ensures { result ≡ vote_from shard self.now }
    {
        match self.given.get(shard as usize) {
            Some(vote) => *vote,
            None => None,
        }
    }

    /// The vote of a shard below 16 is there from now on.
    pub fn set(&mut self, shard: u32, vote: Vote)
        requires { shard < 16 }
        ensures { self.new ≡ insert_entry nat_cmp self.old shard vote }
    {
        self.given[shard as usize] = Some(vote);
    }

    /// The cause that the first no is, by shards.
    pub fn first_no(&self) -> Option<AbortCause>
        ensures { result ≡ first_no_of self.now }
    {
        for shard in 0..16 {
            let cause = no_of(shard as u32, self.given[shard]);
            if cause.is_some() {
                return cause;
            }
        }
        None
    }
}

/// The cause that a vote is, where it is a no.
fn no_of(shard: u32, vote: Option<Vote>) -> Option<AbortCause>
    ensures { result ≡ no_by shard vote }
{
    match vote {
        Some(Vote::No(why)) => Some(AbortCause::NoVote { shard, why }),
        _ => None,
    }
}
