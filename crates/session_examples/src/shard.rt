//! A value with a linear part, and its journal of events and marks.
ghost use Rattle.std.specs.Prelude.{◌≡◌, ◌++◌, [], ◌∷◌, MatchOption, None, Some};

use std::alloc::Global;
use turn_lock::Journaled;

/// An event, or the mark of who took the device out. A mark counts as an entry for the lock alone.
#[derive(Clone, Copy)]
pub enum Record {
    Event { walker: u64, number: u64 },
    Mark { walker: u64 },
}

/// A shard over a device. The device need not be `Drop`: who has it gives it back.
pub struct Shard<D> {
    pub device: Option<D>,
    pub records: Vec<Record>,
    pub shard: u64,
}

impl<D> Journaled for Shard<D> {
    type Entry = Record;

    ghost use Rattle.session_examples.specs.Records.{maker_of, durable_in};

    type Origin = u64;

    ghost journal = { λ s. s.records.items };

    ghost origin = { λ s. s.shard };

    ghost sound = { λ s. Unit {0} };

    ghost maker = { maker_of };

    ghost durable = { durable_in };
}

impl<D> Shard<D> {
    pub fn new(alloc: Global, shard: u64, device: D) -> Shard<D>
        ensures { (result.records.items ≡ []) × (result.shard ≡ shard) × (result.device ≡ Some device) }
    {
        Shard {
            device: Some(device),
            records: Vec::new(alloc),
            shard,
        }
    }

    /// Takes the device out, with a mark of who takes it. Where it is out already, or there is no memory for the mark, nothing changes.
    pub fn take_device(&mut self, walker: u64) -> Option<D>
        ensures device { MatchOption result (self.new.device ≡ self.old.device) (λ d. (self.old.device ≡ Some d) × (self.new.device ≡ None)) }
        ensures journal { MatchOption result (self.new.records.items ≡ self.old.records.items) (λ _. self.new.records.items ≡ self.old.records.items ++ Record.Mark walker ∷ []) }
        ensures shard { self.new.shard ≡ self.old.shard }
    {
        if self.records.reserve(1).is_err() {
            return None;
        }
        let device = self.device.take()?;
        self.records.push_reserved(Record::Mark { walker });
        Some(device)
    }

    /// Puts the device back, and gives what was in its place.
    pub fn put_device(&mut self, device: D) -> Option<D>
        ensures device { (result ≡ self.old.device) × (self.new.device ≡ Some device) }
        ensures rest { (self.new.records ≡ self.old.records) × (self.new.shard ≡ self.old.shard) }
    {
        self.device.replace(device)
    }
}
