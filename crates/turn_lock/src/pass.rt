//! The lock, and what a thread holds of it: a pass, or for a while a turn.
ghost use Rattle.std.specs.Prelude.{◌≡◌, ◌<◌, [], ◌∷◌, true, length, None};
ghost use Rattle.turn_lock.specs.declared.view.Stage.TheVariants.{Idle};
ghost use Rattle.turn_lock.specs.Rule.{is_turn};

use crate::door::Door;
use crate::journaled::Journaled;
use crate::view::{Opening, TurnRule, View};
use atomic_table::{Seat, Table};
use std::alloc::Global;

/// A value that is handed out in turns, one at a time, to the passes that were made with it.
pub struct TurnLock<T: Journaled> {
    pub(crate) table: Table<Option<T>, View<T::Entry, T::Origin>, Opening<T>, TurnRule<T>, Global>,
    pub(crate) door: Door,
    ghost sized: { (table.shared.table_id.words ≡ 3) × (table.shared.table_id.slots ≡ 1) × (0 < table.shared.key.passes) },
}

/// The right to turns, one after another. It has a number, by which the journal tells its entries.
#[derive(Drop)]
pub struct Pass<T, E, O> {
    pub(crate) seat: Seat<Option<T>, View<E, O>>,
    ghost rests: { (seat.me.1 ≡ []) × (seat.me.0.stage ≡ Idle) × (length seat.me.0.records ≡ 1) },
}

/// A turn, for which the value is out. It can't be dropped: `leave` spends it and gives the pass back.
pub struct Turn<T, E, O> {
    pub(crate) seat: Seat<Option<T>, View<E, O>>,
    ghost served: { (seat.me.1 ≡ (0, None) ∷ []) × (is_turn seat.me.0.stage ≡ true) × (length seat.me.0.records ≡ 1) },
}

/// The passes of a lock round a `T`.
pub type PassOf<T> = Pass<T, <T as Journaled>::Entry, <T as Journaled>::Origin>;

/// The turns of a lock round a `T`.
pub type TurnOf<T> = Turn<T, <T as Journaled>::Entry, <T as Journaled>::Origin>;
