// A disk that is a file of the system.
ghost use Rattle.std.specs.Prelude.{None, ◌≡◌};
ghost use Rattle.io_model.specs.Disk.{HasCause};

use crate::{Disk, Failed};
use std::fs::{File, OpenFile};
use std::io;
use std::os::unix::fs::FileExt;

// No write ends past this place.
const MAX_LEN: u64 = 1 << 62;

/// A file as a disk. It tells nothing of what it holds: that it keeps the model is trusted. Each `Err` of the system
/// is `Failed` and raises the count, which stands still at 2^64 - 1.
#[derive(Drop)]
pub struct FileDisk {
    file: File,
    faults: u64,
}

impl FileDisk {
    /// An open file, with a count of 0.
    pub fn new(file: File) -> FileDisk
        ensures { result.faults ≡ 0 }
    {
        FileDisk { file, faults: 0 }
    }

    /// How often it has failed.
    pub fn faults(&self) -> u64
        ensures { result ≡ self.now.faults }
    {
        self.faults
    }

    // The answer, with an `Err` counted.
    fn counted<T: Drop>(&mut self, answer: io::Result<T>) -> Result<T, Failed>
        ensures { HasCause self.old.faults self.new.faults result }
    {
        match answer {
            Ok(value) => Ok(value),
            Err(_) => {
                self.faults = self.faults.saturating_add(1);
                Err(Failed)
            }
        }
    }
}

impl Disk for FileDisk {
    ghost story = { λ d. None };

    ghost faults = { λ d. d.faults };

    fn len(&mut self) -> Result<u64, Failed> {
        let answer = self.file.metadata().map(|m| m.len());
        self.counted(answer)
    }

    fn read(&mut self, at: u64, into: &mut [u8]) -> Result<(), Failed> {
        let answer = self.file.read_exact_at(into, at);
        self.counted(answer)
    }

    fn write_at(&mut self, at: u64, bytes: &[u8]) -> Result<(), Failed> {
        if at > MAX_LEN || bytes.len() as u64 > MAX_LEN - at {
            self.faults = self.faults.saturating_add(1);
            return Err(Failed);
        }
        let answer = self.file.write_all_at(bytes, at);
        self.counted(answer)
    }

    fn cut(&mut self, len: u64) -> Result<(), Failed> {
        let answer = self.file.set_len(len);
        self.counted(answer)
    }

    fn sync(&mut self) -> Result<(), Failed> {
        let answer = self.file.sync_data();
        self.counted(answer)
    }
}
