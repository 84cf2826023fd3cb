//! The kinds of atomic step, and what each tells the seat that makes it.
ghost use Rattle.turn_lock.specs.Rule.{drew, looked, released, without_first, first_alone, joined, spent, published, read};

use crate::journaled::Journaled;
use crate::view::View;
use atomic_table::{Join, Play, Split};

/// Draws a ticket: one is added to word 0.
pub(crate) struct DrawTicket;

impl<T, E, O> Play<Option<T>, View<E, O>> for DrawTicket {
    ghost then = { drew };
}

/// Looks whether the ticket is served, on word 1, and then has the value in the slot.
pub(crate) struct LookForTurn;

impl<T: Journaled> Play<Option<T>, View<T::Entry, T::Origin>> for LookForTurn {
    ghost then = { looked T.journal T.origin T.maker T.durable T.sound };
}

/// Puts the value back and serves the next ticket: one is added to word 1.
pub(crate) struct Release;

impl<T: Journaled> Play<Option<T>, View<T::Entry, T::Origin>> for Release {
    ghost then = { released T.journal };
}

/// Raises the horizon, word 2.
pub(crate) struct Publish;

impl<T, E, O> Play<Option<T>, View<E, O>> for Publish {
    ghost then = { published };
}

/// Reads the horizon, word 2.
pub(crate) struct ReadHorizon;

impl<T, E, O> Play<Option<T>, View<E, O>> for ReadHorizon {
    ghost then = { read };
}

/// Gives the first record to a new seat.
pub(crate) struct SplitFirst;

impl<E, O> Split<View<E, O>> for SplitFirst {
    ghost left = { without_first };

    ghost right = { first_alone };
}

/// Takes in the records of another seat, which is spent.
pub(crate) struct JoinAll;

impl<E, O> Join<View<E, O>> for JoinAll {
    ghost both = { joined };

    ghost spent = { spent };
}
