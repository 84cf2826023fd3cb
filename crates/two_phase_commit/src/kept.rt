//! A request as its home keeps it.
ghost use Rattle.std.specs.Prelude.{◌≡◌, ◌<◌, IfOk};
ghost use Rattle.std.specs.List.{AllByRecursion};
ghost use Rattle.clv_base.specs.declared.state.RequestState.TheVariants.{Undecided};
ghost use Rattle.clv_base.specs.Coordinator.{new_request};
ghost use Rattle.two_phase_commit.specs.Kept.{request_of, IsPlaced};

use crate::alone::{alone, rule_alone, state_of};
use crate::brief::Brief;
use crate::form::{Form, Stage};
use crate::joint::{
    asked, counts_done, counts_vote, is_final, restored, rule, take_done, take_vote,
};
use crate::memory::Memory;
use crate::reminding::{remind_dones, remind_votes};
use crate::states::{copied, is_open, told_parts};
use crate::waiting_homes::waits;
use clv_base::causes::{AbortCause, Vote};
use clv_base::lists::Touched;
use clv_base::messages::Message;
use clv_base::names::TxId;
use clv_base::parts::{PartFacts, ShardList};
use clv_base::state::{RequestState, Ruling};
use std::alloc::Global;
use std::marker::Model;

/// A request, seen as that of the definitions. One of a single shard has no block of its own, and no place for votes.
#[derive(Drop)]
pub struct Kept {
    form: Form,
}

impl Model for Kept {
    ghost use Rattle.two_phase_commit.specs.Coordinated.{KeptRequest};
    ghost use Rattle.two_phase_commit.specs.Kept.{request_of, IsPlaced};

    ghost Value = { KeptRequest };

    ghost view = { λ k. request_of k.form };

    ghost invariant = { λ k. IsPlaced k.form };
}

/// A request of these shards on the heap.
fn shared(alloc: Global, touched: Touched) -> Result<Form, Memory>
    requires { AllByRecursion (λ t. t.0 < 16) touched }
    ensures request { IfOk result (λ form. request_of form ≡ new_request touched Undecided) }
    ensures placed { IfOk result IsPlaced }
{
    let joint = asked(alloc, touched)?;
    match Box::new(alloc, joint) {
        Ok(joint) => Ok(Form::Shared(joint)),
        Err(_) => Err(Memory),
    }
}

impl Kept {
    ghost use Rattle.std.specs.Prelude.{◌≡◌, ◌++◌, ◌<◌, cond, IfOk, OnOk};
    ghost use Rattle.std.specs.List.{AllByRecursion};
    ghost use Rattle.clv_base.specs.declared.state.RequestState.TheVariants.{Undecided};
    ghost use Rattle.clv_base.specs.Coordinator.{new_request, restored_request, ruling_by, takes_vote, with_vote_of, takes_done, with_done_of, missing_dones, missing_votes};
    ghost use Rattle.two_phase_commit.specs.Coordinated.{IsFit, open_state, parts_of, ruled};
    ghost use Rattle.two_phase_commit.specs.Asked.{Tells};
    ghost use Rattle.two_phase_commit.specs.Waiting.{waits as request_waits};
    ghost use Rattle.two_phase_commit.specs.Completed.{is_complete as request_is_complete, is_final as request_is_final};

    /// A request that nobody has voted on, of these shards with their epochs.
    pub(crate) fn asked(alloc: Global, touched: Touched) -> Result<Kept, Memory>
        requires { AllByRecursion (λ t. t.0 < 16) touched }
        ensures { IfOk result (λ kept. kept ≡ new_request touched Undecided) }
    {
        match alone(touched.as_slice()) {
            Some(form) => Ok(Kept { form }),
            None => match shared(alloc, touched) {
                Ok(form) => Ok(Kept { form }),
                Err(memory) => Err(memory),
            },
        }
    }

    /// The request of a commit that a restart found without an END.
    pub(crate) fn restored(alloc: Global, parts: &ShardList) -> Result<Kept, Memory>
        ensures { IfOk result (λ kept. kept ≡ restored_request parts.now) }
    {
        match Box::new(alloc, restored(alloc, parts)) {
            Ok(joint) => Ok(Kept {
                form: Form::Shared(joint),
            }),
            Err(_) => Err(Memory),
        }
    }

    /// What is told of it without a search for it.
    pub(crate) fn brief(&self, shard: u32) -> Brief
        ensures { Tells shard result self.now }
    {
        match &self.form {
            Form::Alone {
                shard: own,
                stage,
                ..
            } if *own == shard => Brief::Alone(*stage),
            Form::Alone { .. } | Form::Lost { .. } | Form::Shared(_) => Brief::Other,
        }
    }

    /// How far it is. Takes no memory.
    pub fn state(&self) -> RequestState
        ensures { result ≡ (self.now).state }
    {
        match &self.form {
            Form::Alone { stage, .. } => state_of(*stage),
            Form::Lost { to, .. } => RequestState::Refused {
                cause: AbortCause::Predecessor { tx: *to },
            },
            Form::Shared(request) => copied(&request.state),
        }
    }

    /// Whether all acknowledgements of its commit are in, and its END is written.
    pub fn is_ended(&self) -> bool
        ensures { result ≡ (self.now).is_ended }
    {
        match &self.form {
            Form::Alone { .. } | Form::Lost { .. } => false,
            Form::Shared(request) => request.is_ended,
        }
    }

    /// The parts of its commit, which are told of it.
    pub(crate) fn told(&self) -> ShardList
        ensures { result ≡ parts_of (self.now).state }
    {
        match &self.form {
            Form::Alone { .. } | Form::Lost { .. } => ShardList::new(),
            Form::Shared(request) => told_parts(&request.state),
        }
    }

    /// Whether it is undecided, or has a COMMIT.
    pub(crate) fn stands_open(&self) -> bool
        ensures { result ≡ open_state (self.now).state }
    {
        match &self.form {
            Form::Alone { stage, .. } => matches!(stage, Stage::Undecided | Stage::Committed),
            Form::Lost { .. } => false,
            Form::Shared(request) => is_open(&request.state),
        }
    }

    /// Whether it waits: for votes of other shards, or for the acknowledgement of a part.
    pub(crate) fn waits(&self, shard: u32) -> bool
        ensures { result ≡ request_waits shard self.now }
    {
        match &self.form {
            Form::Alone {
                shard: own,
                stage,
                ..
            } => matches!(stage, Stage::Undecided) && *own != shard,
            Form::Lost { .. } => false,
            Form::Shared(request) => waits(shard, request),
        }
    }

    /// Whether nothing more is asked or told of it, where its COMMIT is durable: of one shard alone, or a commit with no part, or one that is ended.
    pub(crate) fn is_complete(&self, shard: u32) -> bool
        ensures { result ≡ request_is_complete shard self.now }
    {
        !self.waits(shard) && self.is_final()
    }

    /// The same, as far as it doesn't wait.
    fn is_final(&self) -> bool
        ensures { result ≡ request_is_final self.now (self.now).state }
    {
        match &self.form {
            Form::Alone { stage, .. } => matches!(stage, Stage::Undecided | Stage::Committed),
            Form::Lost { .. } => false,
            Form::Shared(request) => is_final(request),
        }
    }

    /// A Prepare for each missing vote, where it is undecided.
    pub(crate) fn remind_votes(
        &self,
        shard: u32,
        tx: TxId,
        list: &mut Vec<Message>,
    ) -> Result<(), Memory>
        requires { IsFit shard self.now }
        ensures { OnOk result (list.new.items ≡ list.old.items ++ missing_votes shard tx self.now (self.now).state) }
    {
        match &self.form {
            Form::Alone { .. } | Form::Lost { .. } => Ok(()),
            Form::Shared(request) => remind_votes(shard, tx, request, list),
        }
    }

    /// A Decide for each missing acknowledgement, where it is committed.
    pub(crate) fn remind_dones(
        &self,
        shard: u32,
        tx: TxId,
        list: &mut Vec<Message>,
    ) -> Result<(), Memory>
        ensures { OnOk result (list.new.items ≡ list.old.items ++ missing_dones shard tx self.now (self.now).state) }
    {
        match &self.form {
            Form::Alone { .. } | Form::Lost { .. } => Ok(()),
            Form::Shared(request) => remind_dones(shard, tx, request, list),
        }
    }

    /// Whether a vote counts: it is the first of another part of an undecided request.
    pub(crate) fn counts_vote(&self, shard: u32, from: u32) -> bool
        requires { IsFit shard self.now }
        ensures { result ≡ takes_vote shard from self.now }
    {
        match &self.form {
            Form::Alone { .. } | Form::Lost { .. } => false,
            Form::Shared(request) => counts_vote(shard, request, from),
        }
    }

    /// The first vote of another part of an undecided request counts. Takes no memory.
    pub(crate) fn take_vote(&mut self, shard: u32, from: u32, vote: Vote) -> bool
        requires { IsFit shard self.old }
        ensures taken { result ≡ takes_vote shard from self.old }
        ensures request { self.new ≡ cond result (with_vote_of from vote self.old) self.old }
        ensures fit { IsFit shard self.new }
    {
        match &mut self.form {
            Form::Alone { .. } | Form::Lost { .. } => false,
            Form::Shared(request) => take_vote(shard, request, from, vote),
        }
    }

    /// Whether an acknowledgement counts: it is the first of a part of a commit that isn't ended.
    pub(crate) fn counts_done(&self, from: u32) -> bool
        ensures { result ≡ takes_done from self.now }
    {
        match &self.form {
            Form::Alone { .. } | Form::Lost { .. } => false,
            Form::Shared(request) => counts_done(request, from),
        }
    }

    /// The first acknowledgement of a part of a commit that isn't ended counts. Takes no memory.
    pub(crate) fn take_done(&mut self, shard: u32, from: u32) -> bool
        requires { IsFit shard self.old }
        ensures taken { result ≡ takes_done from self.old }
        ensures request { self.new ≡ cond result (with_done_of from self.old) self.old }
        ensures fit { IsFit shard self.new }
    {
        match &mut self.form {
            Form::Alone { .. } | Form::Lost { .. } => false,
            Form::Shared(request) => take_done(shard, request, from),
        }
    }

    /// The ruling that is due of it is made. Takes no memory.
    pub(crate) fn rule(&mut self, shard: u32, tx: TxId, facts: &PartFacts) -> Option<Ruling>
        requires { IsFit shard self.old }
        ensures ruling { result ≡ ruling_by shard tx self.old facts.entry.now }
        ensures request { self.new ≡ ruled result self.old }
        ensures fit { IsFit shard self.new }
    {
        match &mut self.form {
            Form::Alone {
                shard: own,
                epoch,
                stage: Stage::Undecided,
            } => {
                let (form, ruling) = rule_alone(*own, *epoch, tx, facts);
                self.form = form;
                ruling
            }
            Form::Alone { .. } | Form::Lost { .. } => None,
            Form::Shared(request) => rule(shard, tx, request, facts),
        }
    }
}
