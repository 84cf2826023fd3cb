//! A request in which other shards take part, or that a restart found.
ghost use Rattle.std.specs.Prelude.{◌≡◌, ◌≤◌, ◌<◌, length, cond, IfOk};
ghost use Rattle.std.specs.List.{AllByRecursion};
ghost use Rattle.clv_base.specs.declared.state.RequestState.TheVariants.{Undecided};
ghost use Rattle.clv_base.specs.Orders.{nat_in};
ghost use Rattle.clv_base.specs.Coordinator.{new_request, restored_request, ruling_by, takes_vote, with_vote_of, takes_done, with_done_of};
ghost use Rattle.two_phase_commit.specs.Coordinated.{IsFit, ruled, parts_of};
ghost use Rattle.two_phase_commit.specs.Completed.{is_final as final_in};
ghost use Rattle.two_phase_commit.specs.Kept.{joint_request, HasPlaces};

use crate::ballot::Ballot;
use crate::memory::Memory;
use crate::ruling::due_ruling;
use crate::states::is_undecided;
use crate::votes::{is_other, places_for};
use clv_base::causes::Vote;
use clv_base::lists::Touched;
use clv_base::names::TxId;
use clv_base::parts::{PartFacts, ShardList};
use clv_base::state::{RequestState, Ruling};
use std::alloc::Global;

/// The touched shards with their epochs, the votes that came, the ruling, and the acknowledgements of its commit.
#[derive(Drop)]
pub(crate) struct Joint {
    pub(crate) touched: Touched,
    pub(crate) votes: Ballot,
    pub(crate) state: RequestState,
    pub(crate) acknowledged_by: ShardList,
    pub(crate) is_ended: bool,
}

/// A request that nobody has voted on, with a place for the vote of each shard that it touched.
pub(crate) fn asked(alloc: Global, touched: Touched) -> Result<Joint, Memory>
    requires { AllByRecursion (λ t. t.0 < 16) touched }
    ensures request { IfOk result (λ j. joint_request j ≡ new_request touched Undecided) }
    ensures places { IfOk result HasPlaces }
{
    match Ballot::with_places(alloc, places_for(touched.as_slice())) {
        Ok(votes) => Ok(Joint {
            touched,
            votes,
            state: RequestState::Undecided,
            acknowledged_by: ShardList::new(),
            is_ended: false,
        }),
        Err(memory) => Err(memory),
    }
}

/// The request of a commit that a restart found without an END. Takes no memory.
pub(crate) fn restored(alloc: Global, parts: &ShardList) -> Joint
    ensures request { joint_request result ≡ restored_request parts.now }
    ensures places { HasPlaces result }
{
    Joint {
        touched: Touched::new(Vec::new(alloc)),
        votes: Ballot::new(alloc),
        state: RequestState::Committed {
            parts: parts.copied(),
        },
        acknowledged_by: ShardList::new(),
        is_ended: false,
    }
}

/// Whether nothing is left to be done of it, as far as it doesn't wait: nobody voted, or its commit has no part or is ended.
pub(crate) fn is_final(request: &Joint) -> bool
    ensures { result ≡ final_in (joint_request request.now) (joint_request request.now).state }
{
    match &request.state {
        RequestState::Undecided => request.votes.is_empty(),
        RequestState::Committed { parts } => parts.as_slice().is_empty() || request.is_ended,
        RequestState::Finished | RequestState::Refused { .. } => false,
    }
}

/// Whether a vote counts: it is the first of another part of an undecided request.
pub(crate) fn counts_vote(shard: u32, request: &Joint, from: u32) -> bool
    ensures { result ≡ takes_vote shard from (joint_request request.now) }
{
    is_undecided(&request.state)
        && is_other(shard, request.touched.as_slice(), from)
        && request.votes.get(from).is_none()
}

/// The first vote of another part of an undecided request counts.
pub(crate) fn take_vote(shard: u32, request: &mut Joint, from: u32, vote: Vote) -> bool
    requires fit { IsFit shard (joint_request request.old) }
    requires places { HasPlaces request.old }
    ensures taken { result ≡ takes_vote shard from (joint_request request.old) }
    ensures request { joint_request request.new ≡ cond result (with_vote_of from vote (joint_request request.old)) (joint_request request.old) }
    ensures fit { IsFit shard (joint_request request.new) }
    ensures places { HasPlaces request.new }
{
    if !is_undecided(&request.state)
        || !is_other(shard, request.touched.as_slice(), from)
        || request.votes.get(from).is_some()
    {
        return false;
    }
    request.votes.set(from, vote);
    true
}

/// Whether the shard is a part of a commit, of which there are at most 15.
fn is_part(parts: &ShardList, from: u32) -> bool
    ensures part { result ≡ nat_in from parts.now }
    ensures few { length parts.now ≤ 15 }
{
    parts.as_slice().iter().any(|part| from == *part)
}

/// Whether an acknowledgement counts: it is the first of a part of a commit that isn't ended.
pub(crate) fn counts_done(request: &Joint, from: u32) -> bool
    ensures counts { result ≡ takes_done from (joint_request request.now) }
    ensures few { length (parts_of (joint_request request.now).state) ≤ 15 }
{
    match &request.state {
        RequestState::Committed { parts } => {
            is_part(parts, from) && !request.acknowledged_by.contains(from) && !request.is_ended
        }
        RequestState::Undecided | RequestState::Finished | RequestState::Refused { .. } => false,
    }
}

/// The first acknowledgement of a part of a commit that isn't ended counts.
pub(crate) fn take_done(shard: u32, request: &mut Joint, from: u32) -> bool
    requires fit { IsFit shard (joint_request request.old) }
    requires places { HasPlaces request.old }
    ensures taken { result ≡ takes_done from (joint_request request.old) }
    ensures request { joint_request request.new ≡ cond result (with_done_of from (joint_request request.old)) (joint_request request.old) }
    ensures fit { IsFit shard (joint_request request.new) }
    ensures places { HasPlaces request.new }
{
    if !counts_done(request, from) {
        return false;
    }
    request.acknowledged_by = request.acknowledged_by.with(from);
    true
}

/// The ruling that is due of a request is made.
pub(crate) fn rule(shard: u32, tx: TxId, request: &mut Joint, facts: &PartFacts) -> Option<Ruling>
    requires fit { IsFit shard (joint_request request.old) }
    requires places { HasPlaces request.old }
    ensures ruling { result ≡ ruling_by shard tx (joint_request request.old) facts.entry.now }
    ensures request { joint_request request.new ≡ ruled result (joint_request request.old) }
    ensures fit { IsFit shard (joint_request request.new) }
    ensures places { HasPlaces request.new }
{
    let ruling = due_ruling(shard, tx, request, facts);
    match &ruling {
        None => {}
        Some(Ruling::Commit { parts }) => {
            request.state = RequestState::Committed {
                parts: parts.copied(),
            }
        }
        Some(Ruling::Acknowledge) => request.state = RequestState::Finished,
        Some(Ruling::Abort { cause, .. }) => {
            request.state = RequestState::Refused { cause: *cause }
        }
        Some(Ruling::End) => request.is_ended = true,
    }
    ruling
}
