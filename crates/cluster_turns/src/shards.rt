// The shards of a cluster, each in its lock, and walkers.
ghost use Rattle.std.specs.Prelude.{◌≡◌, ◌<◌, true, length, map, IfOk};
ghost use Rattle.clv_base.specs.Shards.{shard_count};
ghost use Rattle.clv_base.specs.Restarts.{run_after};
ghost use Rattle.clv_base.specs.Sessions.{is_of_session, is_session_number};
ghost use Rattle.journal_laws.specs.Offers.{may_make};
ghost use Rattle.machine_calls.specs.Events.{event_fits, sends_fit};
ghost use Rattle.machine_laws.specs.Homes.{is_single};
ghost use Rattle.cluster_turns.specs.Turns.{EventTold, SettledTold};
ghost use Rattle.cluster_turns.specs.Walkers.{IsWalker, IsSameWalker, Walked, GoesOn, MayBeFree, kept, TellsNext, Looked, AreNewPasses, founds_of};

use crate::home::Home;
use crate::turns::{survey, turn};
use clv_base::events::{Event, Outcome};
use clv_base::logs::LogRecord;
use clv_base::names::{Birth, TxId};
use clv_base::splits::Splits;
use machine_calls::{Machine, StepError};
use machine_laws::{Note, Origin};
use std::alloc::Global;
use std::snapshot::Snapshot;
use std::sync::Wait;
use std::sync::atomic::{AtomicU64, Ordering};
use turn_lock::{BatchGate, Pass, TurnLock};

// The last clock.
const WORN: u64 = (1 << 48) - 1;

/// The shards, each in a lock. Threads share it: it holds no pass and no machine outside a lock.
pub struct Shards<M: Machine> {
    pub locks: Vec<TurnLock<Home<M>>>,
    pub splits: Splits,
    pub run: u32,
    /// By shard: who writes a batch, and who sleeps until it is written.
    pub batches: [BatchGate; 16],
    /// Not 0 once a session was stopped for want of memory: its transaction may stand in others' way for ever, so nobody waits from then on.
    pub lacking: AtomicU64,
    /// Not 0 once a request was left standing, as a shard was down: others may wait for it for ever, so who waits looks from then on for a shard that is down.
    pub left: AtomicU64,
    /// Sessions up to this number stay behind a shard's door between two of their events, 0 where none does. Their threads wait for nothing in between.
    pub staying: AtomicU64,
    /// Each shard's log as opening found it.
    pub found: Snapshot<Vec<Vec<LogRecord>>>,
}

/// The right to turns on each shard, with a clock and the serial of the last transaction.
#[derive(Drop)]
pub struct Walker<M: Machine> {
    pub number: u32,
    pub clock: u64,
    pub serial: u64,
    pub passes: Vec<Option<Pass<Home<M>, Note, Origin>>>,
}

/// A walker's clock ends at 2^48 - 1.
#[derive(Clone, Copy, PartialEq, Eq)]
pub struct WornClock {
    pub at: u64,
}

impl<M: Machine> Walker<M> {
    /// A walker with a new pass of each shard's lock.
    pub fn new(
        shards: &Shards<M>,
        number: u32,
        clock: u64,
        passes: Vec<Option<Pass<Home<M>, Note, Origin>>>,
    ) -> Walker<M>
        requires shards { (length shards.now.locks.items ≡ shard_count shards.now.splits) × (shards.now.run ≡ run_after (founds_of shards.now)) }
        requires passes { AreNewPasses shards.now.splits (founds_of shards.now) shards.now.locks.items number passes.items }
        ensures walker { IsWalker shards.now result }
        ensures begins { (result.number ≡ number) × (result.clock ≡ clock) × (result.serial ≡ 0) × (result.passes ≡ passes) }
    {
        Walker {
            number,
            clock,
            serial: 0,
            passes,
        }
    }
}

impl<M: Machine> Shards<M> {
    /// Tells all sessions that one was stopped for want of memory.
    pub fn tell_lack(&self) {
        self.lacking.store(1, Ordering::SeqCst);
    }

    /// Whether one was, as far as this thread knows.
    pub fn is_lacking(&self) -> bool {
        self.lacking.load(Ordering::SeqCst) != 0
    }

    /// Tells all sessions that one left its request standing, as a shard was down.
    pub fn tell_left(&self) {
        self.left.store(1, Ordering::SeqCst);
    }

    /// Whether one did, as far as this thread knows.
    pub fn has_left(&self) -> bool {
        self.left.load(Ordering::SeqCst) != 0
    }

    /// Lets the sessions up to this number stay behind a shard's door after an operation that was answered and a request that stands, so that their next turn
    /// there needs no wait; 0 lets none. Whoever lets them sees to it that their threads wait for nothing between two of their calls, and calls `go_out` where
    /// no further one follows at once.
    pub fn let_stay(&self, upto: usize) {
        self.staying.store(upto as u64, Ordering::SeqCst);
    }

    fn may_stay(&self, walker: u32) -> bool {
        0 < walker && walker as u64 <= self.staying.load(Ordering::SeqCst)
    }

    /// Leaves the door behind which this walker stayed, if it did: before its thread waits for anything.
    pub fn go_out(&self, walker: u32) {
        for lock in &self.locks {
            lock.go_out_if(walker);
        }
    }

    // The same, but for this shard's door. So who waits for a door is behind none.
    fn go_out_but(&self, walker: u32, shard: u32) {
        for (other, lock) in self.locks.iter().enumerate() {
            if other != shard as usize {
                lock.go_out_if(walker);
            }
        }
    }

    /// One event of a walker on a shard, in one turn.
    pub fn event<R: Wait>(
        &self,
        rt: &R,
        alloc: Global,
        walker: &mut Walker<M>,
        shard: u32,
        event: Event,
    ) -> Result<Outcome, StepError>
        requires walker { IsWalker self.now walker.old }
        requires shard { shard < length self.now.locks.items }
        requires single { is_single event ≡ true }
        requires fits { event_fits shard event ≡ true }
        requires free { MayBeFree shard walker.old.number event walker.old.passes.items }
        requires goes { GoesOn self.now.splits self.now.run walker.old.number (kept walker.old.passes.items) shard event }
        ensures walker { IsWalker self.now walker.new × IsSameWalker walker.old walker.new }
        ensures event { Walked (EventTold walker.old.clock walker.old.number event result walker.new.clock) shard walker.old.number walker.old.passes.items walker.new.passes.items }
        ensures sends { IfOk result (λ o. sends_fit o ≡ true) }
    {
        self.go_out_but(walker.number, shard);
        let stays = self.may_stay(walker.number);
        let place = shard as usize;
        let pass = walker.passes[place].take().unwrap();
        let (pass, clock, answer) = turn(
            rt,
            alloc,
            &self.locks[place],
            pass,
            walker.clock,
            walker.number,
            event,
            stays,
        );
        walker.passes[place] = Some(pass);
        walker.clock = clock;
        answer
    }

    /// One event of a session: an operation, a request, a look or a drop.
    pub fn session_event<R: Wait>(
        &self,
        rt: &R,
        alloc: Global,
        walker: &mut Walker<M>,
        shard: u32,
        event: Event,
    ) -> Result<Outcome, StepError>
        requires walker { IsWalker self.now walker.old }
        requires shard { shard < length self.now.locks.items }
        requires session { (is_of_session event ≡ true) × (is_session_number walker.old.number ≡ true) }
        requires fits { event_fits shard event ≡ true }
        requires free { MayBeFree shard walker.old.number event walker.old.passes.items }

        // After the walker's own entries it keeps the rules of a session.
        requires may { may_make self.now.splits self.now.run walker.old.number (kept walker.old.passes.items) shard event ≡ true }
        ensures walker { IsWalker self.now walker.new × IsSameWalker walker.old walker.new }
        ensures event { Walked (EventTold walker.old.clock walker.old.number event result walker.new.clock) shard walker.old.number walker.old.passes.items walker.new.passes.items }
    {
        self.event(rt, alloc, walker, shard, event)
    }

    /// Whether nothing is left to do on a shard but for active parts, in a turn that makes no entry.
    pub fn is_settled<R: Wait>(&self, rt: &R, walker: &mut Walker<M>, shard: u32) -> bool
        requires walker { IsWalker self.now walker.old }
        requires shard { shard < length self.now.locks.items }
        ensures walker { IsWalker self.now walker.new × IsSameWalker walker.old walker.new × (walker.new.clock ≡ walker.old.clock) }
        ensures settled { Walked (SettledTold result) shard walker.old.number walker.old.passes.items walker.new.passes.items }
    {
        self.go_out(walker.number);
        let place = shard as usize;
        let pass = walker.passes[place].take().unwrap();
        let (pass, settled) = survey(rt, &self.locks[place], pass, walker.number);
        walker.passes[place] = Some(pass);
        settled
    }

    /// The name and the birth of the walker's next transaction; its clock is raised by one. `WornClock` comes exactly where the clock is at its end.
    pub fn next_tx(&self, walker: &mut Walker<M>) -> Result<(TxId, Birth), WornClock>
        requires walker { IsWalker self.now walker.old }
        ensures walker { IsWalker self.now walker.new }
        ensures next { TellsNext self.now.run walker.old result walker.new }
    {
        if walker.clock >= WORN {
            return Err(WornClock { at: WORN + 1 });
        }
        walker.clock += 1;
        walker.serial += 1;
        let tx = TxId {
            run: self.run,
            session: walker.number,
            serial: walker.serial,
        };
        let birth = Birth {
            stamp: walker.clock,
            session: walker.number,
            serial: walker.serial,
        };
        Ok((tx, birth))
    }

    pub fn splits(&self) -> &Splits
        ensures { result.now ≡ self.now.splits }
    {
        &self.splits
    }

    /// How many records of the shard's log are durable at least, as this walker was told before or others published. It takes no turn.
    pub fn horizon_of(&self, walker: &mut Walker<M>, shard: u32) -> u64
        requires walker { IsWalker self.now walker.old }
        requires shard { shard < length self.now.locks.items }
        ensures walker { IsWalker self.now walker.new × IsSameWalker walker.old walker.new × (walker.new.clock ≡ walker.old.clock) }
        ensures horizon { Looked shard walker.old.passes.items result walker.new.passes.items }
    {
        let place = shard as usize;
        let mut pass = walker.passes[place].take().unwrap();
        let horizon = self.locks[place].horizon(&mut pass);
        walker.passes[place] = Some(pass);
        horizon
    }
}
