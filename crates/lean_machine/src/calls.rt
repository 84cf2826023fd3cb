//! The machine as those above it see it.

use crate::forgetter::Forgetter;
use crate::machine::LeanMachine;
use clv_base::events::{Event, Outcome};
use clv_base::names::{Birth, TxId};
use machine_calls::{Machine, Parts, StepError};
use std::alloc::Global;

impl<M: Forgetter> Machine for LeanMachine<M> {
    type Store = M::Store;

    type Gate = M::Gate;

    ghost shard = { λ m. m.shard };

    ghost gate = { λ m. m.gate };

    fn last(&self) -> u64 {
        self.machine.last()
    }

    fn entries(&self) -> usize {
        self.machine.entries()
    }

    fn is_down(&self) -> bool {
        self.machine.is_down()
    }

    fn epoch(&self) -> u64 {
        self.machine.epoch()
    }

    fn is_settled(&self) -> bool {
        LeanMachine::is_settled(self)
    }

    fn is_inactive(&self) -> bool {
        self.machine.is_inactive()
    }

    fn has_equal_active_birth(&self, tx: TxId, birth: Birth) -> bool {
        self.machine.has_equal_active_birth(tx, birth)
    }

    fn step(
        &mut self,
        alloc: Global,
        clock: u64,
        walker: u32,
        event: Event,
    ) -> Result<Outcome, StepError> {
        self.step_event(alloc, clock, walker, event)
    }

    fn into_parts(self) -> Parts<M::Store, M::Gate> {
        LeanMachine::into_parts(self)
    }
}
