//! What is known at a seat of the lock's table, and the table's rule. These types are for proofs alone: no value of them is made, but for the opening.
use crate::journaled::Journaled;
use atomic_table::TableRule;
use std::collections::LinkedList;
use std::marker::PhantomData;
use std::snapshot::Snapshot;

/// What is known of one pass: its number, the value's origin, what it has seen, and its own entries.
pub struct Record<E, O> {
    pub number: u64,
    pub origin: O,
    pub seen: LinkedList<E>,
    pub own: LinkedList<E>,
}

/// Outside the line, in line with a ticket, or at the value with a ticket. Tickets count from 0 and do not wrap.
pub enum Stage {
    Idle,
    Waiting(u64),
    Turn(u64),
}

/// What a seat at the table knows: where it stands, and of which passes it has the records. A seat of a pass or a turn has one record.
pub struct View<E, O> {
    pub stage: Stage,
    pub records: LinkedList<Record<E, O>>,
    /// So much is known to be durable.
    pub known: u64,
}

/// What a lock is made with: the value, and the number of passes.
#[derive(Drop)]
pub struct Opening<T> {
    pub value: Snapshot<T>,
    pub passes: usize,
}

/// The rule of the table of a `TurnLock`.
pub struct TurnRule<T> {
    value: PhantomData<T>,
}

impl<T: Journaled> TableRule<Option<T>, View<T::Entry, T::Origin>, Opening<T>> for TurnRule<T> {
    ghost use Rattle.turn_lock.specs.Rule.{Kept, first_view};

    ghost holds = { λ key. Kept T.journal T.origin T.maker T.durable T.sound key.passes (T.origin key.value.value) };

    ghost first = { λ key. first_view key.passes (T.origin key.value.value) };
}
