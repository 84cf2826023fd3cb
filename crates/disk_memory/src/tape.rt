// The notes of a disk in memory, with what a read gives.
ghost use Rattle.std.specs.Prelude.{false, ◌≡◌, ◌≤◌, ◌<◌, ◌+◌, ◌*◌, ◌^◌, ℕ, [], List, length, max, take, drop, true, IfOk, OnOk, vec_capacity, nat_le};
ghost use Rattle.io_model.specs.Story.{IsImage, Write, Cut, after, reads};
ghost use Rattle.disk_memory.specs.Noted.{call_of, notes_of};
ghost use Rattle.disk_memory.specs.Fails.{bytes_written};
ghost use Rattle.disk_memory.specs.Told.{IsQuiet};
ghost use Rattle.disk_memory.specs.Image.{left_by};

use crate::bytes::{append, write_within};
use crate::noted::{Choice, Noted};
use crate::replay::run_notes;
use std::alloc::{AllocError, Global};
use std::marker::Model;

#[derive(Drop)]
pub struct Tape {
    room: usize,
    start: Vec<u8>,
    bytes: Vec<u8>,
    written: Vec<u8>,
    notes: Vec<Noted>,
}

impl Model for Tape {
    ghost use Rattle.std.specs.Prelude.{length, vec_capacity};
    ghost use Rattle.disk_memory.specs.Told.{View, story_of, IsSound};

    ghost Value = { View };

    ghost view = { λ t. record { story = story_of t.start.items t.notes.items t.written.items; room = t.room } };

    ghost invariant = { λ t. IsSound t.start.items t.bytes.items t.written.items t.notes.items t.room (vec_capacity t.bytes) (vec_capacity t.written) (vec_capacity t.notes) };
}

fn with_room(alloc: Global, bytes: &[u8], room: usize) -> Result<Vec<u8>, AllocError>
    requires { length bytes.now ≤ room }
    ensures items { IfOk result (λ v. v.items ≡ bytes.now) }
    ensures room { IfOk result (λ v. room ≤ vec_capacity v) }
{
    let mut all = Vec::with_capacity(alloc, room)?;
    append(&mut all, bytes);
    Ok(all)
}

// Whether these fit the room, with 24 for each note and one more.
fn holds(room: usize, len: usize, written: usize, more: usize, notes: usize) -> bool
    ensures { result ≡ nat_le (len + written + more + 24 * (notes + 1)) room }
{
    len <= room
        && written <= room - len
        && more <= room - len - written
        && notes < (room - len - written - more) / 24
}

impl Tape {
    pub fn new(alloc: Global, bytes: &[u8], room: usize) -> Result<Tape, AllocError>
        requires { length bytes.now ≤ room }
        ensures { IfOk result (λ t. t ≡ record { story = record { start = bytes.now; calls = [] }; room = room }) }
    {
        Ok(Tape {
            room,
            start: bytes.to_vec(alloc)?,
            bytes: with_room(alloc, bytes, room)?,
            written: Vec::with_capacity(alloc, room)?,
            notes: Vec::with_capacity(alloc, room / 24)?,
        })
    }

    pub fn len(&self) -> usize
        ensures { result ≡ length (reads self.now.story) }
    {
        self.bytes.len()
    }

    /// What a read gives.
    pub fn bytes(&self) -> &[u8]
        ensures { result.now ≡ reads self.now.story }
    {
        &self.bytes
    }

    /// The calls, the oldest first.
    pub fn notes(&self) -> &[Noted]
        ensures { result.now ≡ notes_of self.now.story.calls }
    {
        let _ = &self.bytes;
        &self.notes
    }

    pub fn read(&self, at: usize, into: &mut [u8])
        requires { at + length into.old ≤ length (reads self.now.story) }
        ensures { into.new ≡ take (length into.old) (drop at (reads self.now.story)) }
    {
        into.copy_from_slice(&self.bytes[at..at + into.len()]);
    }

    /// Whether a call has room after which the length is this, and so many bytes more were written.
    pub fn has_room(&self, len: usize, more: usize) -> bool
        ensures { result ≡ nat_le (len + bytes_written self.now.story.calls + more + 24 * (length self.now.story.calls + 1)) self.now.room }
    {
        holds(self.room, len, self.written.len(), more, self.notes.len())
    }

    /// Notes a call that changes no bytes.
    pub fn note(&mut self, note: Noted)
        requires quiet { IsQuiet note }
        requires room { length (reads self.old.story) + bytes_written self.old.story.calls + 24 * (length self.old.story.calls + 1) ≤ self.old.room }
        ensures story { self.new.story ≡ after (call_of self.old.story.start self.old.story.calls note []) self.old.story }
        ensures room { self.new.room ≡ self.old.room }
    {
        self.notes.push_reserved(note);
    }

    pub fn write(&mut self, at: usize, bytes: &[u8])
        requires place { at ≤ length (reads self.old.story) }
        requires room { max (length (reads self.old.story)) (at + length bytes.now) + bytes_written self.old.story.calls + length bytes.now + 24 * (length self.old.story.calls + 1) ≤ self.old.room }
        ensures story { self.new.story ≡ after (Write at bytes.now) self.old.story }
        ensures room { self.new.room ≡ self.old.room }
    {
        write_within(&mut self.bytes, at, bytes);
        append(&mut self.written, bytes);
        self.notes.push_reserved(Noted::Write {
            at,
            count: bytes.len(),
        });
    }

    pub fn cut(&mut self, len: usize)
        requires room { length (reads self.old.story) + bytes_written self.old.story.calls + 24 * (length self.old.story.calls + 1) ≤ self.old.room }
        ensures story { self.new.story ≡ after (Cut len) self.old.story }
        ensures room { self.new.room ≡ self.old.room }
    {
        self.bytes.truncate(len);
        self.notes.push_reserved(Noted::Cut { len });
    }

    fn left(&self, alloc: Global, choice: Choice) -> Result<Vec<u8>, AllocError>
        ensures { IfOk result (λ v. v.items ≡ left_by choice self.now.story) }
    {
        match choice {
            Choice::Written => self.bytes.to_vec(alloc),
            Choice::Before => run_notes(
                alloc,
                Choice::Before,
                &self.start,
                &self.notes,
                &self.written,
            ),
            Choice::Fill(byte) => run_notes(
                alloc,
                Choice::Fill(byte),
                &self.start,
                &self.notes,
                &self.written,
            ),
        }
    }

    /// What a crash leaves.
    pub fn image(&self, alloc: Global, choice: Choice) -> Result<Vec<u8>, AllocError>
        ensures exact { IfOk result (λ v. v.items ≡ left_by choice self.now.story) }
        ensures is_image { IfOk result (λ v. IsImage self.now.story v.items) }
    {
        let left = self.left(alloc, choice)?;
        let _ = &self.notes;
        Ok(left)
    }
}
