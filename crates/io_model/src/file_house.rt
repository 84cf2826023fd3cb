// The files of the working folder, two for each shard.
ghost use Rattle.std.specs.Prelude.{◌≡◌, ◌≢◌, ◌<◌, ◌-◌, ℕ, length, None, slice_index, slice_index_or, false, Bool};
ghost use Rattle.io_model.specs.Sides.{is_out_by};

use crate::{Failed, FileDisk, House};
use std::fs::{File, OpenFile, OpenOptions};
use std::io;
use std::rt::Files;

const NAMES: [&str; 16] = [
    "shard-00.log",
    "shard-01.log",
    "shard-02.log",
    "shard-03.log",
    "shard-04.log",
    "shard-05.log",
    "shard-06.log",
    "shard-07.log",
    "shard-08.log",
    "shard-09.log",
    "shard-10.log",
    "shard-11.log",
    "shard-12.log",
    "shard-13.log",
    "shard-14.log",
    "shard-15.log",
];

const OTHERS: [&str; 16] = [
    "shard-00.alt",
    "shard-01.alt",
    "shard-02.alt",
    "shard-03.alt",
    "shard-04.alt",
    "shard-05.alt",
    "shard-06.alt",
    "shard-07.alt",
    "shard-08.alt",
    "shard-09.alt",
    "shard-10.alt",
    "shard-11.alt",
    "shard-12.alt",
    "shard-13.alt",
    "shard-14.alt",
    "shard-15.alt",
];

/// The files `shard-00.log` to `shard-15.log` of the working folder, which are side 0 of each shard, and `shard-00.alt` to `shard-15.alt`, side 1. A file
/// is opened only when its side is asked for, and is made empty where it is absent; the folder is synced then, so that the file is there after a power cut.
/// It is locked for as long as it is open: a second opening of it, by whatever program, is `Failed`.
#[derive(Drop)]
pub struct FileHouse<R: Files<File = File> + Drop> {
    rt: R,
    faults: [u64; 16],
    out0: [bool; 16],
    out1: [bool; 16],
}

impl<R: Files<File = File> + Drop> FileHouse<R> {
    /// All disks are in, with counts of 0.
    pub fn new(rt: R) -> Self
        ensures in_place { (shard side : ℕ) → ⟦<FileHouse<R> as House>⟧.is_out result shard side ≡ false }
        ensures no_faults { (shard : ℕ) → ⟦<FileHouse<R> as House>⟧.faults result shard ≡ 0 }
    {
        FileHouse {
            rt,
            faults: [0; 16],
            out0: [false; 16],
            out1: [false; 16],
        }
    }
}

impl<R: Files<File = File> + Drop> FileHouse<R> {
    // The lock is the open file's: the system gives it up when that is closed, however the process ends.
    // A file without bytes may be a new one: its name is durable only after the folder was synced.
    fn open_file(&self, name: &str) -> io::Result<File> {
        let file = OpenOptions::new()
            .read(true)
            .write(true)
            .create(true)
            .open(&self.rt, name)?;
        file.try_lock()?;
        if file.metadata()?.len() == 0 {
            File::open(&self.rt, ".")?.sync_all()?;
        }
        Ok(file)
    }

    // Whether the shard's side is out.
    fn goes(&mut self, shard: usize, side: u32, is_out: bool)
        requires shard { shard < 16 }
        requires side { side < 2 }
        ensures faults { self.new.faults ≡ self.old.faults }
        ensures here { is_out_by (slice_index_or self.new.out0 shard false) (slice_index_or self.new.out1 shard false) side ≡ is_out }
        ensures other_side { is_out_by (slice_index_or self.new.out0 shard false) (slice_index_or self.new.out1 shard false) (1 - side) ≡ is_out_by (slice_index_or self.old.out0 shard false) (slice_index_or self.old.out1 shard false) (1 - side) }
        ensures others { (other : ℕ) → other ≢ shard → (slice_index_or self.new.out0 other false ≡ slice_index_or self.old.out0 other false) × (slice_index_or self.new.out1 other false ≡ slice_index_or self.old.out1 other false) }
    {
        if side == 0 {
            self.out0[shard] = is_out;
        } else {
            self.out1[shard] = is_out;
        }
    }
}

impl<R: Files<File = File> + Drop> House for FileHouse<R> {
    type Disk = FileDisk;

    ghost faults = { λ h shard. slice_index h.faults shard };

    ghost is_out = { λ h shard side. is_out_by (slice_index_or h.out0 shard false) (slice_index_or h.out1 shard false) side };

    ghost story = { λ h shard side. None };

    fn open_side(&mut self, shard: u32, side: u32) -> Result<FileDisk, Failed> {
        let shard = shard as usize;
        let name = if side == 0 {
            NAMES[shard]
        } else {
            OTHERS[shard]
        };
        match self.open_file(name) {
            Ok(file) => {
                self.goes(shard, side, true);
                Ok(FileDisk::new(file))
            }
            Err(_) => {
                self.faults[shard] = self.faults[shard].saturating_add(1);
                Err(Failed)
            }
        }
    }

    fn give_side(&mut self, shard: u32, side: u32, disk: FileDisk) {
        let shard = shard as usize;
        self.faults[shard] = self.faults[shard].saturating_add(disk.faults());
        self.goes(shard, side, false);
    }
}
