// Operations of the active transaction.
ghost use Rattle.std.specs.Prelude.{◌≡◌};
ghost use Rattle.clv_base.specs.declared.ops.Op.TheVariants.{Get, Put, Del, Add};
ghost use Rattle.clv_base.specs.Sessions.{lies_in};
ghost use Rattle.clv_base.specs.Shards.{in_span, shard_of};
ghost use Rattle.session_ops.specs.Parts.{has_died, value_in, added_in, whole_in};
ghost use Rattle.session_api.specs.declared.progress.Progress.TheVariants.{Active};
ghost use Rattle.session_api.specs.Progresses.{refusal_of, failure_told, answer_told, value_given, added_given, after_op};
ghost use Rattle.session_api.specs.Savepoints.{Saved};
ghost use Rattle.session_api.specs.Sessions.{IsSession, PointCalled, PointMade, ScanCalled, RangeCalled, ScanMade};

use crate::progress::{Progress, after_operation};
use crate::session::Session;
use cluster_turns::Place;
use clv_base::causes::AbortCause;
use clv_base::lists::Pairs;
use clv_base::ops::{Answer, Op};
use clv_base::values::Value;
use io_model::{Pace, Step};
use machine_calls::Flier;
use session_ops::{OpError as Failure, at_key, scan};
use std::alloc::Global;
use std::mem;
use std::sync::Wait;

/// Why an operation wasn't answered.
#[derive(Clone, Copy, PartialEq, Eq)]
pub enum OpError {
    /// No transaction is active.
    NoTx,
    /// The range is empty, as its bounds fall.
    BadRange { lo: u64, hi: u64 },
    /// The transaction died of it.
    Aborted(AbortCause),
    /// A shard was found down: one of the operation's, or after a wait any; or a going back found it so and was left undone there. The transaction
    /// stays active.
    Down { shard: u32 },
    Worn { at: u64 },
    Memory,
}

// The last stamp is below it.
const WORN: u64 = 1 << 48;

fn told(failure: Failure) -> OpError
    ensures { result ≡ failure_told failure }
{
    match failure {
        Failure::Aborted(cause) => OpError::Aborted(cause),
        Failure::Down { shard } => OpError::Down { shard },
        Failure::Worn { at } => OpError::Worn { at },
        Failure::Memory => OpError::Memory,
    }
}

// Why a session that stands so has no operation.
fn refusal(progress: &Progress) -> OpError
    ensures { result ≡ refusal_of progress.now }
{
    match progress {
        Progress::Worn(_) => OpError::Worn { at: WORN },
        Progress::Undone { shard, .. } => OpError::Down { shard: *shard },
        _ => OpError::NoTx,
    }
}

fn is_dead<A>(answer: &Result<A, Failure>) -> bool
    ensures { result ≡ has_died answer.now }
{
    match answer {
        Err(Failure::Aborted(_)) => true,
        _ => false,
    }
}

// What an operation at a key tells: the value before, or whether there was a number.
fn value_of(answer: Result<Answer, OpError>) -> Result<Option<Value>, OpError>
    ensures { result ≡ value_given answer }
{
    match answer {
        Ok(Answer::Value(value)) => Ok(value),
        Ok(Answer::Pairs(_pairs)) => Ok(None),
        Ok(Answer::Added(_found)) => Ok(None),
        Err(error) => Err(error),
    }
}

fn added_of(answer: Result<Answer, OpError>) -> Result<bool, OpError>
    ensures { result ≡ added_given answer }
{
    match answer {
        Ok(Answer::Added(found)) => Ok(found),
        Ok(Answer::Value(_)) | Ok(Answer::Pairs(_)) => Ok(false),
        Err(error) => Err(error),
    }
}

// Only a dead transaction has ended.
fn answered<A>(answer: Result<A, Failure>) -> Result<A, OpError>
    ensures { result ≡ answer_told answer }
{
    match answer {
        Ok(value) => Ok(value),
        Err(failure) => Err(told(failure)),
    }
}

impl<'a, M: Flier, P: Pace, R: Wait> Session<'a, M, P, R> {
    // The session goes on with this transaction, and its step is told.
    fn go_on(&mut self, place: Place, died: bool)
        ensures { self.new ≡ record self.old { progress = after_op place died } }
    {
        self.progress = after_operation(place, died);
        let session = self.walker.number;
        self.pace.pass(Step::Answered { session });
    }

    // At a key, of the active transaction.
    fn active_at_key(
        &mut self,
        alloc: Global,
        place: Place,
        key: u64,
        op: Op,
    ) -> Result<Answer, OpError>
        requires session { IsSession self.old.shards.now self.old.walker (Active place) }
        requires saved { Saved (Active place) self.old.saves.items }
        requires lies { lies_in self.old.shards.now.splits (shard_of self.old.shards.now.splits key) op ≡ in_span self.old.shards.now.splits (shard_of self.old.shards.now.splits key) key }
        ensures session { IsSession self.new.shards.now self.new.walker self.new.progress }
        ensures saved { Saved self.new.progress self.new.saves.items }
        ensures shards { self.new.shards ≡ self.old.shards }
        ensures saves { self.new.saves ≡ self.old.saves }
        ensures told { PointMade whole_in self.old.shards.now self.old.walker place op key result self.new.walker self.new.progress }
    {
        let mut place = place;
        let answer = at_key(
            self.rt,
            alloc,
            self.shards,
            &mut self.walker,
            &mut place,
            key,
            &op,
            self.pace,
        );
        let died = is_dead(&answer);
        self.go_on(place, died);
        answered(answer)
    }

    // One operation at a key.
    fn call_at_key(&mut self, alloc: Global, key: u64, op: Op) -> Result<Answer, OpError>
        requires session { IsSession self.old.shards.now self.old.walker self.old.progress }
        requires saved { Saved self.old.progress self.old.saves.items }
        requires lies { lies_in self.old.shards.now.splits (shard_of self.old.shards.now.splits key) op ≡ in_span self.old.shards.now.splits (shard_of self.old.shards.now.splits key) key }
        ensures session { IsSession self.new.shards.now self.new.walker self.new.progress }
        ensures saved { Saved self.new.progress self.new.saves.items }
        ensures shards { self.new.shards ≡ self.old.shards }
        ensures saves { self.new.saves ≡ self.old.saves }
        ensures told { PointCalled whole_in self.old.shards.now self.old.walker self.old.progress op key result self.new.walker self.new.progress }
    {
        match mem::replace(&mut self.progress, Progress::Idle) {
            Progress::Active(place) => self.active_at_key(alloc, place, key, op),
            other => {
                let refusal = refusal(&other);
                self.progress = other;
                Err(refusal)
            }
        }
    }

    /// The value at a key. `NoTx` comes exactly where no transaction is active; every other answer is told by the turns of the call.
    /// After `Aborted` the transaction has ended, after every other answer it is active as before.
    pub fn get(&mut self, alloc: Global, key: u64) -> Result<Option<Value>, OpError>
        requires session { IsSession self.old.shards.now self.old.walker self.old.progress }
        requires saved { Saved self.old.progress self.old.saves.items }
        ensures session { IsSession self.new.shards.now self.new.walker self.new.progress }
        ensures saved { Saved self.new.progress self.new.saves.items }
        ensures shards { self.new.shards ≡ self.old.shards }
        ensures saves { self.new.saves ≡ self.old.saves }
        ensures told { PointCalled value_in self.old.shards.now self.old.walker self.old.progress (Get key) key result self.new.walker self.new.progress }
    {
        value_of(self.call_at_key(alloc, key, Op::Get(key)))
    }

    /// Puts a value at a key; answers the one before. `NoTx` comes exactly where no transaction is active; every other answer is told by
    /// the turns of the call. After `Aborted` the transaction has ended, after every other answer it is active as before.
    pub fn put(&mut self, alloc: Global, key: u64, value: Value) -> Result<Option<Value>, OpError>
        requires session { IsSession self.old.shards.now self.old.walker self.old.progress }
        requires saved { Saved self.old.progress self.old.saves.items }
        ensures session { IsSession self.new.shards.now self.new.walker self.new.progress }
        ensures saved { Saved self.new.progress self.new.saves.items }
        ensures shards { self.new.shards ≡ self.old.shards }
        ensures saves { self.new.saves ≡ self.old.saves }
        ensures told { PointCalled value_in self.old.shards.now self.old.walker self.old.progress (Put key value) key result self.new.walker self.new.progress }
    {
        value_of(self.call_at_key(alloc, key, Op::Put(key, value)))
    }

    /// Deletes a key; answers its value before. `NoTx` comes exactly where no transaction is active; every other answer is told by the
    /// turns of the call. After `Aborted` the transaction has ended, after every other answer it is active as before.
    pub fn del(&mut self, alloc: Global, key: u64) -> Result<Option<Value>, OpError>
        requires session { IsSession self.old.shards.now self.old.walker self.old.progress }
        requires saved { Saved self.old.progress self.old.saves.items }
        ensures session { IsSession self.new.shards.now self.new.walker self.new.progress }
        ensures saved { Saved self.new.progress self.new.saves.items }
        ensures shards { self.new.shards ≡ self.old.shards }
        ensures saves { self.new.saves ≡ self.old.saves }
        ensures told { PointCalled value_in self.old.shards.now self.old.walker self.old.progress (Del key) key result self.new.walker self.new.progress }
    {
        value_of(self.call_at_key(alloc, key, Op::Del(key)))
    }

    /// Adds to the number at a key, modulo 2^64; answers whether there is one. Where there is none nothing is written. `NoTx` comes exactly
    /// where no transaction is active; every other answer is told by the turns of the call. After `Aborted` the transaction has ended, after
    /// every other answer it is active as before.
    pub fn add(&mut self, alloc: Global, key: u64, by: u64) -> Result<bool, OpError>
        requires session { IsSession self.old.shards.now self.old.walker self.old.progress }
        requires saved { Saved self.old.progress self.old.saves.items }
        ensures session { IsSession self.new.shards.now self.new.walker self.new.progress }
        ensures saved { Saved self.new.progress self.new.saves.items }
        ensures shards { self.new.shards ≡ self.old.shards }
        ensures saves { self.new.saves ≡ self.old.saves }
        ensures told { PointCalled added_in self.old.shards.now self.old.walker self.old.progress (Add key by) key result self.new.walker self.new.progress }
    {
        added_of(self.call_at_key(alloc, key, Op::Add(key, by)))
    }

    // All pairs of a range, of the active transaction.
    fn active_scan(
        &mut self,
        alloc: Global,
        place: Place,
        lo: u64,
        hi: u64,
    ) -> Result<Pairs, OpError>
        requires session { IsSession self.old.shards.now self.old.walker (Active place) }
        requires saved { Saved (Active place) self.old.saves.items }
        ensures session { IsSession self.new.shards.now self.new.walker self.new.progress }
        ensures saved { Saved self.new.progress self.new.saves.items }
        ensures shards { self.new.shards ≡ self.old.shards }
        ensures saves { self.new.saves ≡ self.old.saves }
        ensures told { ScanMade self.old.shards.now self.old.walker place lo hi result self.new.walker self.new.progress }
    {
        let mut place = place;
        let answer = scan(
            self.rt,
            alloc,
            self.shards,
            &mut self.walker,
            &mut place,
            lo,
            hi,
            self.pace,
        );
        let died = is_dead(&answer);
        self.go_on(place, died);
        answered(answer)
    }

    // The range isn't empty.
    fn scan_range(&mut self, alloc: Global, lo: u64, hi: u64) -> Result<Pairs, OpError>
        requires session { IsSession self.old.shards.now self.old.walker self.old.progress }
        requires saved { Saved self.old.progress self.old.saves.items }
        ensures session { IsSession self.new.shards.now self.new.walker self.new.progress }
        ensures saved { Saved self.new.progress self.new.saves.items }
        ensures shards { self.new.shards ≡ self.old.shards }
        ensures saves { self.new.saves ≡ self.old.saves }
        ensures told { RangeCalled self.old.shards.now self.old.walker self.old.progress lo hi result self.new.walker self.new.progress }
    {
        match mem::replace(&mut self.progress, Progress::Idle) {
            Progress::Active(place) => self.active_scan(alloc, place, lo, hi),
            other => {
                let refusal = refusal(&other);
                self.progress = other;
                Err(refusal)
            }
        }
    }

    /// All pairs from `lo` up to `hi`, in rising order. `NoTx` comes exactly where no transaction is active, else `BadRange` exactly
    /// where the bounds fall; every other answer is told by the turns of the call. After `Aborted` the transaction has ended, after every
    /// other answer it is active, with the parts that were scanned so far.
    pub fn scan(&mut self, alloc: Global, lo: u64, hi: u64) -> Result<Pairs, OpError>
        requires session { IsSession self.old.shards.now self.old.walker self.old.progress }
        requires saved { Saved self.old.progress self.old.saves.items }
        ensures session { IsSession self.new.shards.now self.new.walker self.new.progress }
        ensures saved { Saved self.new.progress self.new.saves.items }
        ensures shards { self.new.shards ≡ self.old.shards }
        ensures saves { self.new.saves ≡ self.old.saves }
        ensures told { ScanCalled self.old.shards.now self.old.walker self.old.progress lo hi result self.new.walker self.new.progress }
    {
        if hi < lo && self.progress.active().is_some() {
            return Err(OpError::BadRange { lo, hi });
        }
        self.scan_range(alloc, lo, hi)
    }
}
