// A disk: bytes that are read, written, cut and synced.
ghost use Rattle.std.specs.Prelude.{◌≡◌, ◌+◌, ◌≤◌, ◌^◌, ℕ, List, Option, length, IfSome, OnOk};
ghost use Rattle.io_model.specs.Story.{Story, reads};
ghost use Rattle.io_model.specs.Disk.{Tells, Measures, Reads, Writes, Cuts, Syncs, HasCause};

/// The disk, or the house of disks, refused a call.
#[derive(Clone, Copy, PartialEq, Eq)]
pub struct Failed;

/// A disk of at most 2^62 bytes. Between two syncs that succeed a crash may leave any bytes in the ranges that were
/// written; after a sync it leaves what a read gives. A call answers `Failed` only where the count of faults rose.
pub trait Disk {
    /// The bytes at first and the calls since, where the disk tells them.
    ghost story: { Self → Option Story };

    /// How often the disk has failed. It never falls.
    ghost faults: { Self → ℕ };

    /// The number of bytes.
    fn len(&mut self) -> Result<u64, Failed>
        ensures told { Tells (story self.old) (story self.new) (Measures result) }
        ensures cause { HasCause (faults self.old) (faults self.new) result };

    /// Fills `into` with the bytes from place `at` on, all of which are on the disk.
    fn read(&mut self, at: u64, into: &mut [u8]) -> Result<(), Failed>
        requires { IfSome (story self.old) (λ s. at + length into.old ≤ length (reads s)) }
        ensures told { Tells (story self.old) (story self.new) (Reads at into.new result) }
        ensures cause { HasCause (faults self.old) (faults self.new) result };

    /// Writes over what is there from place `at` on, and past the end. `at` is at most the length. A write whose end
    /// would pass 2^62 is `Failed`. After `Failed` any bytes may stand in the range.
    fn write_at(&mut self, at: u64, bytes: &[u8]) -> Result<(), Failed>
        requires { IfSome (story self.old) (λ s. at ≤ length (reads s)) }
        ensures told { Tells (story self.old) (story self.new) (Writes at bytes.now result) }
        ensures within { OnOk result (at + length bytes.now ≤ 2 ^ 62) }
        ensures cause { HasCause (faults self.old) (faults self.new) result };

    /// Cuts the disk to its first `len` bytes; it has at least so many.
    fn cut(&mut self, len: u64) -> Result<(), Failed>
        requires { IfSome (story self.old) (λ s. len ≤ length (reads s)) }
        ensures told { Tells (story self.old) (story self.new) (Cuts len result) }
        ensures cause { HasCause (faults self.old) (faults self.new) result };

    /// Makes all bytes durable: after `Ok` a crash leaves what a read gives.
    fn sync(&mut self) -> Result<(), Failed>
        ensures told { Tells (story self.old) (story self.new) (Syncs result) }
        ensures cause { HasCause (faults self.old) (faults self.new) result };
}
