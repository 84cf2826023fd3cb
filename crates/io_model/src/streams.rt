// Where bytes come from, and where they go.
ghost use Rattle.std.specs.Prelude.{◌≤◌, ◌<◌, ◌+◌, ◌-◌, ◌^◌, ℕ, List, Option, length, IfOk};
ghost use Rattle.io_model.specs.Disk.{HasCause};
ghost use Rattle.io_model.specs.Streams.{Gives, Takes};

use crate::Failed;

/// Bytes that are read one piece after another.
pub trait Source {
    /// The bytes left, where the source tells them.
    ghost left: { Self → Option (List ℕ) };

    /// How often it has failed.
    ghost faults: { Self → ℕ };

    /// Puts the next bytes at the front of `into`, and says how many. For a piece that isn't empty 0 is the end.
    fn read(&mut self, into: &mut [u8]) -> Result<usize, Failed>
        ensures within { IfOk result (λ n. n ≤ length into.old) }
        ensures told { Gives (left self.old) (left self.new) into.new result }
        ensures cause { HasCause (faults self.old) (faults self.new) result };
}

/// Bytes are written to it one piece after another.
pub trait Sink {
    /// The bytes taken, where the sink tells them.
    ghost taken: { Self → Option (List ℕ) };

    /// How often it has failed.
    ghost faults: { Self → ℕ };

    /// Takes some of the bytes, the first of them first, and says how many; of a piece that isn't empty at least one.
    fn write(&mut self, bytes: &[u8]) -> Result<usize, Failed>
        ensures within { IfOk result (λ n. n ≤ length bytes.now) }
        ensures some { IfOk result (λ n. 0 < length bytes.now → 0 < n) }
        ensures told { Takes (taken self.old) (taken self.new) bytes.now result }
        ensures cause { HasCause (faults self.old) (faults self.new) result };
}
