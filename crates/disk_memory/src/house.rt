// A house of disks in memory.
ghost use Rattle.std.specs.Prelude.{◌≡◌, ◌≢◌, ◌+◌, ◌-◌, ◌^◌, ◌<◌, ℕ, min, length, false, true, Some, None, IfOk, MatchOption};
ghost use Rattle.io_model.specs.Disk.{HasCause, Adds};
ghost use Rattle.io_model.specs.Sides.{sides_told, sides_out};
ghost use Rattle.disk_memory.specs.House.{faults_at, is_out_at, story_at, state_by, story_in_state, GoesOut, Settles};

use crate::memory::MemoryDisk;
use io_model::{Failed, House};
use std::alloc::{AllocError, Global};
use std::mem;

#[derive(Drop)]
pub enum State {
    Absent,
    In(MemoryDisk),
    Out,
}

#[derive(Drop)]
pub struct Slot {
    pub side0: State,
    pub side1: State,
    pub faults: u64,
}

/// Sixteen places for disks in memory, each with two sides. Opening a side that has no disk is a fault.
#[derive(Drop)]
pub struct MemoryHouse {
    slots: Vec<Slot>,
    ghost sixteen: { length slots.items ≡ 16 },
}

// Takes what stands here.
fn take_state(state: &mut State) -> Option<MemoryDisk>
    ensures out { MatchOption result ((story_in_state state.old ≡ None) × (state.new ≡ State.Absent)) (λ d. (Some d.story ≡ story_in_state state.old) × (state.new ≡ State.Out)) }
{
    match mem::replace(state, State::Out) {
        State::In(disk) => Some(disk),
        _ => {
            *state = State::Absent;
            None
        }
    }
}

fn take_by(slot: &mut Slot, side: u32) -> Option<MemoryDisk>
    requires { side < 2 }
    ensures out { MatchOption result ((story_in_state (state_by slot.old side) ≡ None) × (state_by slot.new side ≡ State.Absent)) (λ d. (Some d.story ≡ story_in_state (state_by slot.old side)) × (state_by slot.new side ≡ State.Out)) }
    ensures other_side { state_by slot.new (1 - side) ≡ state_by slot.old (1 - side) }
    ensures faults { slot.new.faults ≡ slot.old.faults }
{
    if side == 0 {
        take_state(&mut slot.side0)
    } else {
        take_state(&mut slot.side1)
    }
}

// Takes the side's disk out.
fn take_out(slot: &mut Slot, side: u32) -> Result<MemoryDisk, Failed>
    requires { side < 2 }
    ensures out { GoesOut side slot.old slot.new result }
    ensures other_side { state_by slot.new (1 - side) ≡ state_by slot.old (1 - side) }
    ensures cause { HasCause slot.old.faults slot.new.faults result }
{
    match take_by(slot, side) {
        Some(disk) => Ok(disk.with_no_faults()),
        None => {
            slot.faults = slot.faults.saturating_add(1);
            Err(Failed)
        }
    }
}

// Puts a disk in, and counts nothing.
fn settle(slot: &mut Slot, side: u32, disk: MemoryDisk)
    requires { side < 2 }
    ensures state { Settles side disk slot.old slot.new }
    ensures faults { slot.new.faults ≡ slot.old.faults }
{
    if side == 0 {
        slot.side0 = State::In(disk);
    } else {
        slot.side1 = State::In(disk);
    }
}

// Puts a disk in, and adds its count.
fn put_in(slot: &mut Slot, side: u32, disk: MemoryDisk)
    requires { side < 2 }
    ensures faults { Adds slot.old.faults disk.faults slot.new.faults }
    ensures state { Settles side disk slot.old slot.new }
{
    slot.faults = slot.faults.saturating_add(disk.faults());
    settle(slot, side, disk);
}

// The disk that stands here.
fn standing(state: &State) -> Option<&MemoryDisk>
    ensures { MatchOption result (story_in_state state.now ≡ None) (λ d. story_in_state state.now ≡ Some d.now.story) }
{
    match state {
        State::In(disk) => Some(disk),
        _ => None,
    }
}

fn side_of(slot: &Slot, side: u32) -> &State
    ensures { result.now ≡ state_by slot.now side }
{
    if side == 0 { &slot.side0 } else { &slot.side1 }
}

impl MemoryHouse {
    /// No shard has a disk.
    pub fn new(alloc: Global) -> Result<MemoryHouse, AllocError>
        ensures { IfOk result (λ h. (shard : ℕ) → (sides_told (⟦<MemoryHouse as House>⟧.story h) shard ≡ None) × (sides_out (⟦<MemoryHouse as House>⟧.is_out h) shard ≡ (false, false)) × (⟦<MemoryHouse as House>⟧.faults h shard ≡ 0)) }
    {
        let mut slots = Vec::with_capacity(alloc, 16)?;
        for _ in 0..16usize {
            slots.push_reserved(Slot {
                side0: State::Absent,
                side1: State::Absent,
                faults: 0,
            });
        }
        Ok(MemoryHouse { slots })
    }

    /// Puts a disk into a shard's side, as it stands. The house's count for the shard stays.
    pub fn put(&mut self, shard: u32, side: u32, disk: MemoryDisk)
        requires shard { shard < 16 }
        requires side { side < 2 }
        ensures story { ⟦<MemoryHouse as House>⟧.story self.new shard side ≡ Some disk.story }
        ensures back { ⟦<MemoryHouse as House>⟧.is_out self.new shard side ≡ false }
        ensures faults { ⟦<MemoryHouse as House>⟧.faults self.new shard ≡ ⟦<MemoryHouse as House>⟧.faults self.old shard }
        ensures other_side { (⟦<MemoryHouse as House>⟧.is_out self.new shard (1 - side) ≡ ⟦<MemoryHouse as House>⟧.is_out self.old shard (1 - side)) × (⟦<MemoryHouse as House>⟧.story self.new shard (1 - side) ≡ ⟦<MemoryHouse as House>⟧.story self.old shard (1 - side)) }
        ensures others { (other : ℕ) → other ≢ shard → (⟦<MemoryHouse as House>⟧.faults self.new other ≡ ⟦<MemoryHouse as House>⟧.faults self.old other) × ((s : ℕ) → (⟦<MemoryHouse as House>⟧.is_out self.new other s ≡ ⟦<MemoryHouse as House>⟧.is_out self.old other s) × (⟦<MemoryHouse as House>⟧.story self.new other s ≡ ⟦<MemoryHouse as House>⟧.story self.old other s)) }
    {
        settle(&mut self.slots[shard as usize], side, disk);
    }

    /// The disk of a shard's side; none where it has none, or where it is out.
    pub fn disk(&self, shard: u32, side: u32) -> Option<&MemoryDisk>
        requires { shard < 16 }
        ensures { MatchOption result (⟦<MemoryHouse as House>⟧.story self.now shard side ≡ None) (λ d. ⟦<MemoryHouse as House>⟧.story self.now shard side ≡ Some d.now.story) }
    {
        standing(side_of(&self.slots[shard as usize], side))
    }

    /// The house's count of faults for the shard.
    pub fn fault_count(&self, shard: u32) -> u64
        requires { shard < 16 }
        ensures { result ≡ ⟦<MemoryHouse as House>⟧.faults self.now shard }
    {
        self.slots[shard as usize].faults
    }
}

impl House for MemoryHouse {
    type Disk = MemoryDisk;

    ghost faults = { λ h shard. faults_at h.slots.items shard };

    ghost is_out = { λ h shard side. is_out_at h.slots.items shard side };

    ghost story = { λ h shard side. story_at h.slots.items shard side };

    fn open_side(&mut self, shard: u32, side: u32) -> Result<MemoryDisk, Failed> {
        take_out(&mut self.slots[shard as usize], side)
    }

    fn give_side(&mut self, shard: u32, side: u32, disk: MemoryDisk) {
        put_in(&mut self.slots[shard as usize], side, disk);
    }
}
