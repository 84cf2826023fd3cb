// The reader, by a trait that hides what it stands on.
ghost use Rattle.std.specs.Prelude.{ℕ, List, Option, Result};
ghost use Rattle.io_model.specs.Streams.{CountsReading};
ghost use Rattle.io_model.specs.declared.whole.ReadError.{ReadError as ErrorIs};
ghost use Rattle.live_streams.specs.Handed.{ReadsLines};
ghost use Rattle.live_streams.specs.declared.reading.Read.{Read as ReadIs};

use io_model::{ReadError, Source};
use live_streams::{Read, Reader};
use std::alloc::Global;
use std::sync::Wait;

/// Who reads the input.
pub trait ReadsInput {
    /// What it did: from the one to the other, of the bytes that were left and those that are left now.
    ghost reads: { Self → Option (List ℕ) → Option (List ℕ) → Result ReadIs ErrorIs → Self → Type 0 };

    fn read_input<S: Source>(&mut self, alloc: Global, source: &mut S) -> Result<Read, ReadError>
        ensures reads { reads self.old (S.left source.old) (S.left source.new) result self.new }
        ensures cause { CountsReading (S.faults source.old) (S.faults source.new) result };
}

impl<'a, R: Wait> ReadsInput for Reader<'a, R> {
    ghost reads = { λ a left now result b. ReadsLines left now a.lines.items b.lines.items a.own.answers b.own.answers result };

    fn read_input<S: Source>(&mut self, alloc: Global, source: &mut S) -> Result<Read, ReadError> {
        self.read_all(alloc, source)
    }
}
