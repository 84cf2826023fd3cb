// Streams in memory, which fail where they are told to.
ghost use Rattle.std.specs.Prelude.{◌≡◌, ◌≤◌, ◌<◌, ◌+◌, ◌-◌, ◌^◌, ◌++◌, [], length, min, take, drop, Some, true, false, not, ◌&&◌, nat_le, is_ok, IfOk, OnOk, OnErr, vec_capacity};
ghost use Rattle.io_model.specs.Disk.{HasCause};
ghost use Rattle.io_model.specs.Streams.{Gives, Takes};
ghost use Rattle.io_model.specs.States.{is_told, next_number};

use crate::{Failed, Sink, Source};
use std::alloc::{AllocError, Global};
use std::marker::Model;

/// A source in memory. It gives its bytes in pieces of at most a given size.
#[derive(Drop)]
pub struct MemorySource {
    bytes: Vec<u8>,
    at: usize,
    piece: usize,
    failing: Vec<u64>,
    made: u64,
    faults: u64,
}

impl Model for MemorySource {
    ghost use Rattle.std.specs.Prelude.{drop, length, ◌≤◌, ◌<◌};
    ghost use Rattle.io_model.specs.States.{SourceState};

    ghost Value = { SourceState };

    ghost view = { λ s. record { left = drop s.at s.bytes.items; piece = s.piece; failing = s.failing.items; made = s.made; faults = s.faults } };

    ghost invariant = { λ s. (s.at ≤ length s.bytes.items) × (0 < s.piece) };
}

// Copies bytes to the front of a piece.
fn give(bytes: &[u8], into: &mut [u8])
    requires { length bytes.now ≤ length into.old }
    ensures { take (length bytes.now) into.new ≡ bytes.now }
{
    into[..bytes.len()].copy_from_slice(bytes);
}

impl MemorySource {
    /// A source of these bytes, in pieces of at most `piece` bytes. The calls whose numbers, from 1, are in `failing` fail.
    pub fn new(
        alloc: Global,
        bytes: &[u8],
        piece: usize,
        failing: &[u64],
    ) -> Result<MemorySource, AllocError>
        requires { 0 < piece }
        ensures { IfOk result (λ s. s ≡ record { left = bytes.now; piece = piece; failing = failing.now; made = 0; faults = 0 }) }
    {
        Ok(MemorySource {
            bytes: bytes.to_vec(alloc)?,
            at: 0,
            piece,
            failing: failing.to_vec(alloc)?,
            made: 0,
            faults: 0,
        })
    }
}

impl Source for MemorySource {
    ghost left = { λ s. Some s.left };

    ghost faults = { λ s. s.faults };

    fn read(&mut self, into: &mut [u8]) -> Result<usize, Failed>
        ensures within { IfOk result (λ n. n ≤ length into.old) }
        ensures told { Gives (Some self.old.left) (Some self.new.left) into.new result }
        ensures cause { HasCause self.old.faults self.new.faults result }
        ensures exact { is_ok result ≡ not (is_told self.old.failing self.old.made) }
        ensures size { IfOk result (λ n. n ≡ min (min self.old.piece (length into.old)) (length self.old.left)) }
        ensures made { (self.new.made ≡ next_number self.old.made) × (self.new.failing ≡ self.old.failing) × (self.new.piece ≡ self.old.piece) }
    {
        self.made = self.made.saturating_add(1);
        if self.failing.contains(&self.made) {
            self.faults = self.faults.saturating_add(1);
            return Err(Failed);
        }
        let rest = &self.bytes[self.at..];
        let count = self.piece.min(into.len()).min(rest.len());
        give(&rest[..count], into);
        self.at += count;
        Ok(count)
    }
}

/// A sink in memory. It takes pieces of at most a given size, and has room for a given number of bytes.
#[derive(Drop)]
pub struct MemorySink {
    taken: Vec<u8>,
    room: usize,
    piece: usize,
    failing: Vec<u64>,
    made: u64,
    faults: u64,
}

impl Model for MemorySink {
    ghost use Rattle.std.specs.Prelude.{length, ◌≤◌, ◌<◌, vec_capacity};
    ghost use Rattle.io_model.specs.States.{SinkState};

    ghost Value = { SinkState };

    ghost view = { λ s. record { taken = s.taken.items; room = s.room; piece = s.piece; failing = s.failing.items; made = s.made; faults = s.faults } };

    ghost invariant = { λ s. (length s.taken.items ≤ s.room) × (s.room ≤ vec_capacity s.taken) × (0 < s.piece) };
}

// Appends bytes for which there is room.
fn append(into: &mut Vec<u8>, bytes: &[u8])
    requires { length into.old.items + length bytes.now ≤ vec_capacity into.old }
    ensures items { into.new.items ≡ into.old.items ++ bytes.now }
    ensures capacity { vec_capacity into.new ≡ vec_capacity into.old }
{
    for byte in bytes {
        into.push_reserved(*byte);
    }
}

impl MemorySink {
    /// A sink with room for `room` bytes, which takes at most `piece` bytes at a call. The calls whose numbers, from 1,
    /// are in `failing` fail, and so does one that would pass the room; a call that fails takes nothing. All memory is
    /// taken here.
    pub fn new(
        alloc: Global,
        room: usize,
        piece: usize,
        failing: &[u64],
    ) -> Result<MemorySink, AllocError>
        requires { 0 < piece }
        ensures { IfOk result (λ s. s ≡ record { taken = []; room = room; piece = piece; failing = failing.now; made = 0; faults = 0 }) }
    {
        Ok(MemorySink {
            taken: Vec::with_capacity(alloc, room)?,
            room,
            piece,
            failing: failing.to_vec(alloc)?,
            made: 0,
            faults: 0,
        })
    }

    /// The bytes taken.
    pub fn taken(&self) -> &[u8]
        ensures { result.now ≡ self.now.taken }
    {
        &self.taken
    }

    /// How often it has failed.
    pub fn fault_count(&self) -> u64
        ensures { result ≡ self.now.faults }
    {
        self.faults
    }
}

impl Sink for MemorySink {
    ghost taken = { λ s. Some s.taken };

    ghost faults = { λ s. s.faults };

    fn write(&mut self, bytes: &[u8]) -> Result<usize, Failed>
        ensures within { IfOk result (λ n. n ≤ length bytes.now) }
        ensures some { IfOk result (λ n. 0 < length bytes.now → 0 < n) }
        ensures told { Takes (Some self.old.taken) (Some self.new.taken) bytes.now result }
        ensures cause { HasCause self.old.faults self.new.faults result }
        ensures exact { is_ok result ≡ (not (is_told self.old.failing self.old.made) && nat_le (length self.old.taken + min self.old.piece (length bytes.now)) self.old.room) }
        ensures size { IfOk result (λ n. n ≡ min self.old.piece (length bytes.now)) }
        ensures made { (self.new.made ≡ next_number self.old.made) × (self.new.failing ≡ self.old.failing) × (self.new.piece ≡ self.old.piece) × (self.new.room ≡ self.old.room) }
    {
        self.made = self.made.saturating_add(1);
        let count = self.piece.min(bytes.len());
        if self.failing.contains(&self.made) || self.room - self.taken.len() < count {
            self.faults = self.faults.saturating_add(1);
            return Err(Failed);
        }
        append(&mut self.taken, &bytes[..count]);
        Ok(count)
    }
}
