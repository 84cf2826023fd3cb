//! A value with a journal.
ghost use Rattle.std.specs.Prelude.{ℕ, List};

/// A value with a journal, to which a turn may only add entries of its pass's number.
///
/// What counts as an entry is the implementor's choice, for the lock alone. A value that keeps its own entries and, beside them, marks of what happened to it
/// (as of who took a part of it out) makes `Entry` an enum of both and lets `maker` give each the number of its pass: then a turn may add a mark as it adds
/// an entry. The layer above leaves the marks out where it speaks of entries alone.
pub trait Journaled {
    /// What the journal is made of.
    type Entry;

    /// What never changes of a value.
    type Origin;

    /// The entries so far, the oldest first.
    ghost journal: { Self → List Self.Entry };

    ghost origin: { Self → Self.Origin };

    /// The number of the pass that made an entry.
    ghost maker: { Self.Entry → ℕ };

    /// What holds of a value whenever it is at home. It may tell more than a fact: what a ghost field can't hold.
    ghost sound: { Self → Type 0 };

    /// How much an entry says to be durable, 0 where it says nothing of it.
    ghost durable: { Self.Entry → ℕ };
}
