// A round of a session.
ghost use Rattle.std.specs.Prelude.{◌≡◌, ℕ, length, Some, Err};
ghost use Rattle.cluster_turns.specs.Walkers.{IsSameWalker};
ghost use Rattle.session_ops.specs.declared.parts.RoundError.TheVariants.{Down};
ghost use Rattle.session_ops.specs.Rounds.{Rounded, RoundTold, Every, NoShard};
ghost use Rattle.session_api.specs.Savepoints.{Saved};
ghost use Rattle.session_api.specs.Sessions.{IsSession, found_in};

use crate::progress::Progress;
use crate::session::Session;
use cluster_turns::Place;
use io_model::Pace;
use machine_calls::Flier;
use session_ops::{RoundError, round};
use std::alloc::Global;
use std::sync::Wait;
use turn_lock::Batch;

// After each so many tries of a transaction its session makes a round. The naps before the first one are of two milliseconds in all.
const TRIES_PER_ROUND: u64 = 8;

// So many tries a transaction has although a round finds a shard down: it may have died of others that go on. The naps between two tries are of 20
// milliseconds at most, and of some two seconds in all so many tries.
const PATIENCE: u64 = 128;

// And so many once a session has left its request standing, as that may never end: a tenth of a second in all.
const PATIENCE_ONCE_LEFT: u64 = 32;

// How many tries a transaction has had that died: each has the next serial.
fn tries_of(last: &Place) -> u64 {
    last.tx()
        .serial
        .saturating_sub(last.birth().serial)
        .saturating_add(1)
}

// How many tries of the session's last transaction died, if it is to be tried again.
fn tries_so_far(progress: &Progress) -> u64 {
    match progress {
        Progress::Ended(last) => tries_of(last),
        _ => 0,
    }
}

// How many tries a transaction has although a shard is down.
fn patience_of(is_left: bool) -> u64 {
    if is_left {
        PATIENCE_ONCE_LEFT
    } else {
        PATIENCE
    }
}

// The shard that a round found down, where no patience is left.
fn found_by(answer: Result<Option<Batch>, RoundError>, waits: bool) -> Option<u32>
    ensures { (n : ℕ) → result ≡ Some n → answer ≡ Err (Down n) }
{
    match answer {
        Err(RoundError::Down { shard }) => { if waits { None } else { Some(shard) } }
        _ => None,
    }
}

impl<'a, M: Flier, P: Pace, R: Wait> Session<'a, M, P, R> {
    /// Makes one round over all shards, in rising order, for whoever has nothing else to do: flushes each once, unless another walker writes a batch
    /// of it, and carries its messages. Where nothing moved it sleeps until the other's batch is written, or, where nobody writes, asks once for what
    /// is missing. The session's last transaction stands as before, and no entry of the round is a session's. One that ends well has found each shard
    /// with no message left, or down, and has tried to flush each, unless it answers a batch that another walker writes. A shard that is down is
    /// passed over: `Down` comes only where a turn of the round found that shard down, and each other one down or with nothing buffered and no
    /// message. `Worn` comes only where a turn would have had a stamp past the last, and `Memory` at want of memory; the round ends there.
    pub fn round(&mut self, alloc: Global) -> Result<Option<Batch>, RoundError>
        requires session { IsSession self.old.shards.now self.old.walker self.old.progress }
        requires saved { Saved self.old.progress self.old.saves.items }
        ensures session { IsSession self.new.shards.now self.new.walker self.new.progress }
        ensures saved { Saved self.new.progress self.new.saves.items }
        ensures shards { self.new.shards ≡ self.old.shards }
        ensures saves { self.new.saves ≡ self.old.saves }
        ensures progress { self.new.progress ≡ self.old.progress }
        ensures walker { IsSameWalker self.old.walker self.new.walker }
        ensures round { Rounded self.old.walker.number self.old.walker.clock self.old.walker.passes.items result self.new.walker.clock self.new.walker.passes.items }
        ensures told { RoundTold (length self.old.shards.now.locks.items) NoShard Every self.old.walker.number self.old.walker.clock self.old.walker.passes.items result self.new.walker.clock self.new.walker.passes.items }
    {
        round(
            self.rt,
            alloc,
            self.shards,
            &mut self.walker,
            &[false; 16],
            self.pace,
        )
    }

    // After some tries of the last transaction, a round; the shard that it found down, where that is to stop the session.
    fn round_after(&mut self, alloc: Global, tries: u64) -> Option<u32>
        requires session { IsSession self.old.shards.now self.old.walker self.old.progress }
        requires saved { Saved self.old.progress self.old.saves.items }
        ensures session { IsSession self.new.shards.now self.new.walker self.new.progress }
        ensures saved { Saved self.new.progress self.new.saves.items }
        ensures shards { self.new.shards ≡ self.old.shards }
        ensures saves { self.new.saves ≡ self.old.saves }
        ensures progress { self.new.progress ≡ self.old.progress }
        ensures walker { IsSameWalker self.old.walker self.new.walker }
        ensures round { Rounded self.old.walker.number self.old.walker.clock self.old.walker.passes.items (found_in result) self.new.walker.clock self.new.walker.passes.items }
    {
        let answer = self.round(alloc);
        let patience = patience_of(self.shards.has_left());
        found_by(answer, tries < patience)
    }

    // Before a further try of the last transaction: makes a round where it is time for one. Whoever it died of may never end, where a shard is down: so a
    // shard that the round found down is told once the transaction has been tried often.
    pub(crate) fn shard_down(&mut self, alloc: Global) -> Option<u32>
        requires session { IsSession self.old.shards.now self.old.walker self.old.progress }
        requires saved { Saved self.old.progress self.old.saves.items }
        ensures session { IsSession self.new.shards.now self.new.walker self.new.progress }
        ensures saved { Saved self.new.progress self.new.saves.items }
        ensures shards { self.new.shards ≡ self.old.shards }
        ensures saves { self.new.saves ≡ self.old.saves }
        ensures progress { self.new.progress ≡ self.old.progress }
        ensures walker { IsSameWalker self.old.walker self.new.walker }
        ensures round { Rounded self.old.walker.number self.old.walker.clock self.old.walker.passes.items (found_in result) self.new.walker.clock self.new.walker.passes.items }
    {
        let tries = tries_so_far(&self.progress);
        if tries % TRIES_PER_ROUND == 0 {
            return self.round_after(alloc, tries);
        }
        None
    }
}
