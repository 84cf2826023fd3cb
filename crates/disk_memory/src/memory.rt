// The disk.
ghost use Rattle.std.specs.Prelude.{◌≡◌, ◌≤◌, ◌<◌, ◌+◌, ◌^◌, ◌-◌, [], length, min, max, Some, true, false, not, ◌&&◌, ◌||◌, is_ok, IfOk, OnOk, OnErr};
ghost use Rattle.io_model.specs.Story.{IsImage, Len, Read, Write_failed, Cut_failed, Sync_failed, reads};
ghost use Rattle.io_model.specs.Disk.{Rose, Tells, Measures, Reads, Writes, Cuts, Syncs, HasCause};
ghost use Rattle.disk_memory.specs.Fails.{is_told, fits, fits_call, is_past, story_after_failing, next_number, IsCounted};
ghost use Rattle.disk_memory.specs.Noted.{call_of, notes_of};
ghost use Rattle.disk_memory.specs.Told.{IsQuiet};
ghost use Rattle.disk_memory.specs.Image.{left_by};

use crate::noted::{Choice, Noted};
use crate::tape::Tape;
use io_model::{Disk, Failed};
use std::alloc::{AllocError, Global};
use std::marker::Model;

// No write ends past this place.
const MAX_LEN: usize = 1 << 62;

/// A disk in memory, which fails where it is told to. It keeps the list of all its calls but those that fail for want
/// of room.
#[derive(Drop)]
pub struct MemoryDisk {
    failing: Vec<u64>,
    last: u64,
    tape: Tape,
    made: u64,
    faults: u64,
}

impl Model for MemoryDisk {
    ghost use Rattle.disk_memory.specs.Fails.{DiskState};

    ghost Value = { DiskState };

    ghost view = { λ d. record { story = d.tape.story; faults = d.faults; made = d.made; failing = d.failing.items; last = d.last; room = d.tape.room } };
}

impl MemoryDisk {
    /// A disk that has these bytes, synced. The calls whose numbers, from 1, are in `failing` fail, and so do all past
    /// number `last`. So does a call after which the length, the bytes of all writes and 24 for each call in the list
    /// would together pass `room`, and a write that would end past 2^62. A failing call leaves what a read gives; the
    /// range of a failing write counts as written. All memory is taken here.
    pub fn new(
        alloc: Global,
        bytes: &[u8],
        failing: &[u64],
        last: u64,
        room: u64,
    ) -> Result<MemoryDisk, AllocError>
        requires { length bytes.now ≤ room }
        ensures { IfOk result (λ d. d ≡ record { story = record { start = bytes.now; calls = [] }; faults = 0; made = 0; failing = failing.now; last = last; room = room }) }
    {
        Ok(MemoryDisk {
            failing: failing.to_vec(alloc)?,
            last,
            tape: Tape::new(alloc, bytes, room as usize)?,
            made: 0,
            faults: 0,
        })
    }

    /// What a crash now leaves, by choice.
    pub fn image(&self, alloc: Global, choice: Choice) -> Result<Vec<u8>, AllocError>
        ensures exact { IfOk result (λ v. v.items ≡ left_by choice self.now.story) }
        ensures is_image { IfOk result (λ v. IsImage self.now.story v.items) }
    {
        self.tape.image(alloc, choice)
    }

    /// What a read gives.
    pub fn bytes(&self) -> &[u8]
        ensures { result.now ≡ reads self.now.story }
    {
        self.tape.bytes()
    }

    /// The calls in the list, the oldest first.
    pub fn calls(&self) -> &[Noted]
        ensures { result.now ≡ notes_of self.now.story.calls }
    {
        self.tape.notes()
    }

    /// How often it has failed.
    pub fn faults(&self) -> u64
        ensures { result ≡ self.now.faults }
    {
        self.faults
    }

    // As it is opened anew.
    pub(crate) fn with_no_faults(self) -> MemoryDisk
        ensures { result ≡ record self { faults = 0 } }
    {
        let mut disk = self;
        disk.faults = 0;
        disk
    }

    // Counts the call, and says whether it is told to fail.
    fn starts(&mut self) -> bool
        ensures told { result ≡ is_told self.old }
        ensures counted { self.new ≡ record self.old { made = next_number self.old.made } }
    {
        self.made = self.made.saturating_add(1);
        self.made > self.last || self.failing.contains(&self.made)
    }

    // Whether there is room for a call that leaves this length and writes so many bytes.
    fn has_room(&self, len: usize, more: usize) -> bool
        ensures { result ≡ fits self.now len more }
    {
        self.tape.has_room(len, more)
    }

    // Counts a fault. A call that was told to fail is kept, if there is room.
    fn fail(&mut self, told: bool, note: Noted)
        requires { IsQuiet note }
        ensures story { self.new.story ≡ story_after_failing self.old told (call_of self.old.story.start self.old.story.calls note []) }
        ensures rose { Rose self.old.faults self.new.faults }
        ensures later { self.old.faults ≤ self.new.faults }
        ensures same { (self.new.made ≡ self.old.made) × (self.new.failing ≡ self.old.failing) × (self.new.last ≡ self.old.last) × (self.new.room ≡ self.old.room) }
    {
        self.faults = self.faults.saturating_add(1);
        if told && self.tape.has_room(self.tape.len(), 0) {
            self.tape.note(note);
        }
    }
}

impl Disk for MemoryDisk {
    ghost story = { λ d. Some d.story };

    ghost faults = { λ d. d.faults };

    fn len(&mut self) -> Result<u64, Failed>
        ensures told { Tells (Some self.old.story) (Some self.new.story) (Measures result) }
        ensures cause { HasCause self.old.faults self.new.faults result }
        ensures exact { is_ok result ≡ (not (is_told self.old) && fits_call self.old) }
        ensures failing { OnErr result (self.new.story ≡ story_after_failing self.old (is_told self.old) Len) }
        ensures counted { IsCounted self.old self.new }
    {
        let told = self.starts();
        let len = self.tape.len();
        if told || !self.has_room(len, 0) {
            self.fail(told, Noted::Len);
            return Err(Failed);
        }
        self.tape.note(Noted::Len);
        Ok(len as u64)
    }

    fn read(&mut self, at: u64, into: &mut [u8]) -> Result<(), Failed>
        requires { at + length into.old ≤ length (reads self.old.story) }
        ensures told { Tells (Some self.old.story) (Some self.new.story) (Reads at into.new result) }
        ensures cause { HasCause self.old.faults self.new.faults result }
        ensures exact { is_ok result ≡ (not (is_told self.old) && fits_call self.old) }
        ensures failing { OnErr result (self.new.story ≡ story_after_failing self.old (is_told self.old) (Read at (length into.old))) }
        ensures counted { IsCounted self.old self.new }
    {
        let at = at as usize;
        let count = into.len();
        let told = self.starts();
        if told || !self.has_room(self.tape.len(), 0) {
            self.fail(told, Noted::Read { at, count });
            return Err(Failed);
        }
        self.tape.read(at, into);
        self.tape.note(Noted::Read { at, count });
        Ok(())
    }

    fn write_at(&mut self, at: u64, bytes: &[u8]) -> Result<(), Failed>
        requires { at ≤ length (reads self.old.story) }
        ensures told { Tells (Some self.old.story) (Some self.new.story) (Writes at bytes.now result) }
        ensures within { OnOk result (at + length bytes.now ≤ 2 ^ 62) }
        ensures cause { HasCause self.old.faults self.new.faults result }
        ensures exact { is_ok result ≡ (not (is_told self.old || is_past (at + length bytes.now)) && fits self.old (max (length (reads self.old.story)) (at + length bytes.now)) (length bytes.now)) }
        ensures failing { OnErr result (self.new.story ≡ story_after_failing self.old (is_told self.old || is_past (at + length bytes.now)) (Write_failed at (length bytes.now) (reads self.old.story))) }
        ensures counted { IsCounted self.old self.new }
    {
        let at = at as usize;
        let count = bytes.len();
        let told = self.starts() || at > MAX_LEN || count > MAX_LEN - at;
        if told || !self.has_room(self.tape.len().max(at + count), count) {
            self.fail(told, Noted::FailedWrite { at, count });
            return Err(Failed);
        }
        self.tape.write(at, bytes);
        Ok(())
    }

    fn cut(&mut self, len: u64) -> Result<(), Failed>
        requires { len ≤ length (reads self.old.story) }
        ensures told { Tells (Some self.old.story) (Some self.new.story) (Cuts len result) }
        ensures cause { HasCause self.old.faults self.new.faults result }
        ensures exact { is_ok result ≡ (not (is_told self.old) && fits_call self.old) }
        ensures failing { OnErr result (self.new.story ≡ story_after_failing self.old (is_told self.old) (Cut_failed len (reads self.old.story))) }
        ensures counted { IsCounted self.old self.new }
    {
        let len = len as usize;
        let told = self.starts();
        if told || !self.has_room(self.tape.len(), 0) {
            self.fail(told, Noted::FailedCut { len });
            return Err(Failed);
        }
        self.tape.cut(len);
        Ok(())
    }

    fn sync(&mut self) -> Result<(), Failed>
        ensures told { Tells (Some self.old.story) (Some self.new.story) (Syncs result) }
        ensures cause { HasCause self.old.faults self.new.faults result }
        ensures exact { is_ok result ≡ (not (is_told self.old) && fits_call self.old) }
        ensures failing { OnErr result (self.new.story ≡ story_after_failing self.old (is_told self.old) Sync_failed) }
        ensures counted { IsCounted self.old self.new }
    {
        let told = self.starts();
        if told || !self.has_room(self.tape.len(), 0) {
            self.fail(told, Noted::FailedSync);
            return Err(Failed);
        }
        self.tape.note(Noted::Sync);
        Ok(())
    }
}
