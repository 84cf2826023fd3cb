//! What the loop asks of the state.
ghost use Rattle.std.specs.Prelude.{◌≡◌, ℕ, false, List, None, Some, IsTrue};
ghost use Rattle.clv_base.specs.declared.names.TxId.{TxId as Tx};
ghost use Rattle.clv_base.specs.State.{Shard};
ghost use Rattle.clv_base.specs.Due.{due_of};
ghost use Rattle.due_step.specs.Ready.{IsReady, IsDone, least, but_least};

use clv_base::names::TxId;

/// A shard's state with its candidates, rising: all for which something is due are among them.
pub trait Dues {
    ghost shard: { Self → Shard };

    ghost candidates: { Self → List Tx };

    /// How many candidates there is room for.
    ghost limit: { Self → ℕ };

    /// The least candidate.
    fn first(&self) -> Option<TxId>
        ensures { result ≡ least (candidates self.now) };

    /// The least candidate is none any more.
    fn leave_first(&mut self)
        ensures candidates { candidates self.new ≡ but_least (candidates self.old) }
        ensures shard { shard self.new ≡ shard self.old }
        ensures limit { limit self.new ≡ limit self.old };

    /// Does what is due for the least candidate, if anything is, lets the ghosts go that bear no lock then, and makes a candidate of each for whom that makes something due. Takes no memory.
    fn do_for(&mut self, tx: TxId) -> bool
        requires ready { IsReady (shard self.old) (candidates self.old) (limit self.old) }
        requires first { least (candidates self.old) ≡ Some tx }
        ensures done { IsTrue result → IsDone (due_of (shard self.old) tx) (shard self.new) }
        ensures nothing { result ≡ false → (due_of (shard self.old) tx ≡ None) × (shard self.new ≡ shard self.old) × (candidates self.new ≡ candidates self.old) }
        ensures ready { IsReady (shard self.new) (candidates self.new) (limit self.new) }
        ensures limit { limit self.new ≡ limit self.old };
}
