// A value on the heap.

use std::alloc::Global;
use std::marker::Model;
use std::ops::{Deref, DerefMut};

/// A value that stands on the heap, so that to move what holds it costs a few bytes. It is seen as the value, and used as one.
pub struct OnHeap<T> {
    value: Box<T>,
}

impl<T> Model for OnHeap<T> {
    ghost Value = { T };

    ghost view = { λ h. h.value.value };
}

impl<T> OnHeap<T> {
    ghost use Rattle.std.specs.Prelude.{◌≡◌, IfOk, IfErr};

    /// Puts a value on the heap. It comes back where there is no memory.
    pub fn new(alloc: Global, value: T) -> Result<OnHeap<T>, T>
        ensures kept { IfOk result (λ h. h ≡ value) }
        ensures back { IfErr result (λ v. v ≡ value) }
    {
        match Box::new(alloc, value) {
            Ok(value) => Ok(OnHeap { value }),
            Err(failed) => Err(failed.value),
        }
    }

    /// The value, by move. Takes no memory.
    pub fn into_inner(self) -> T
        ensures { result ≡ self }
    {
        let OnHeap { value } = self;
        Box::into_inner(value)
    }
}

impl<T> Deref for OnHeap<T> {
    ghost use Rattle.std.specs.Prelude.{◌≡◌};

    type Target = T;

    ghost deref_gives = { λ h x. x ≡ h };

    fn deref(&self) -> &T {
        &self.value
    }
}

impl<T> DerefMut for OnHeap<T> {
    ghost use Rattle.std.specs.Prelude.{◌≡◌};
    ghost use Rattle.std.specs.Borrow.{Lends, sem};
    ghost use Rattle.cluster_turns.specs.contracts.heap.OnHeap.{the_row};

    ghost deref_mut_gives = { λ h x. x ≡ h };

    fn deref_mut(&mut self) -> &mut T
        ensures* writes_back { sem 𝓛 (Lends (the_row T.row) T.row self.entry result (λ w. w)) }
        ensures value { result.now ≡ self.old }
    {
        &mut self.value
    }
}
