//! What becomes of an event.

use clv_base::events::Outcome;

/// What became of an event.
#[derive(Drop)]
pub enum Happened {
    /// A quiet answer: nothing was done.
    Quiet(Outcome),
    /// It was done, with this outcome, for the caller and for the journal.
    Done { outcome: Outcome, copy: Outcome },
}
