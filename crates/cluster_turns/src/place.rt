// A session's place in its transaction.
ghost use Rattle.std.specs.Prelude.{◌≡◌, ◌⊎◌, ◌<◌, ◌≤◌, ◌&&◌, ◌==◌, ℕ, suc, Some, None, true, nat_lt, map, [], drop, IfOk, IfNone, IfSome, OnOk, OnErr};
ghost use Rattle.std.specs.List.{list_all};
ghost use Rattle.std.specs.Map.{lookup};
ghost use Rattle.clv_base.specs.FileRules.{numbers_rise};
ghost use Rattle.clv_base.specs.declared.names.Birth.{Birth as BirthIs};
ghost use Rattle.clv_base.specs.declared.events.Event.TheVariants.{Op as OpEvent, RollTo};
ghost use Rattle.clv_base.specs.declared.events.Outcome.TheVariants.{Answered, Rolled};
ghost use Rattle.clv_base.specs.Backs.{has_written as op_has_written, stands_for_back};
ghost use Rattle.clv_base.specs.Sessions.{SessionState, begun as begun_after, touch, scan_shard, is_lowest, is_back_whole, is_whole_now, op_answered, went_back, Ended, Standing, Told, Refused};
ghost use Rattle.cluster_turns.specs.Stages.{phase_of};
ghost use Rattle.cluster_turns.specs.Notes.{may_write as op_may_write, with_note, is_noted, back_begun};

use crate::notes::Notes;
use crate::touched_shards::TouchedShards;
use clv_base::events::Event;
use clv_base::kept::KeptOp;
use clv_base::lists::Touched;
use clv_base::names::{Birth, TxId};
use clv_base::ops::{Answer, Op};
use std::alloc::{AllocError, Global};
use std::marker::Model;

/// How far a transaction is.
#[derive(Clone, Copy, PartialEq, Eq)]
pub enum Stage {
    /// It may have operations.
    Touching,
    /// It died or was dropped.
    Ended,
    /// Its request stands at its home.
    Standing(u32),
    /// It was told that it is acknowledged.
    Told,
    /// It was told that it is aborted.
    Refused,
}

/// A transaction of a session: its name and birth, the number of its last operation and the shard of that where it was a part scan, the touched shards
/// with the epochs that were answered, how far it is, and notes of its writes that stand, with what became of its goings back: where the last number is
/// one's, on which shard its last entry is and to where, and whether each of an earlier number was whole. Its goings back themselves only proofs know.
#[derive(Drop)]
pub struct Place {
    tx: TxId,
    birth: Birth,
    nth: u64,
    scanned: Option<u32>,
    epochs: TouchedShards,
    stage: Stage,
    written: Notes,
    back: Option<(u32, u64)>,
    backs: quiet_list::Told<(u64, u64)>,
    is_whole: bool,
}

impl Model for Place {
    ghost use Rattle.std.specs.Prelude.{suc, reverse, Some};
    ghost use Rattle.clv_base.specs.Sessions.{SessionState};

    ghost Value = { SessionState };

    ghost use Rattle.cluster_turns.specs.Stages.{phase_of};
    ghost use Rattle.cluster_turns.specs.Notes.{FallFrom, AreUpTo};

    ghost view = { λ p. record { tx = p.tx; birth = Some p.birth; nth = p.nth; scanned = p.scanned; touched = p.epochs; phase = phase_of p.stage; back = p.back; written = p.written; backs = reverse p.backs.items; is_whole = p.is_whole } };

    ghost invariant = { λ p. FallFrom (suc p.nth) p.written × AreUpTo p.nth (reverse p.backs.items) };
}

impl Place {
    /// A transaction that has made nothing yet.
    pub fn begun(alloc: Global, tx: TxId, birth: Birth) -> Place
        ensures { (before : SessionState) → result ≡ begun_after before tx birth }
    {
        Place {
            tx,
            birth,
            nth: 0,
            scanned: None,
            epochs: TouchedShards::new(),
            stage: Stage::Touching,
            written: Notes::new(alloc),
            back: None,
            backs: quiet_list::Told::new(),
            is_whole: true,
        }
    }

    pub fn tx(&self) -> TxId
        ensures { result ≡ self.now.tx }
    {
        self.tx
    }

    pub fn birth(&self) -> Birth
        ensures { self.now.birth ≡ Some result }
    {
        self.birth
    }

    pub fn stage(&self) -> Stage
        ensures { phase_of result ≡ self.now.phase }
    {
        self.stage
    }

    /// The number of the last operation or going back, 0 before the first. A later going back may lead there.
    pub fn nth(&self) -> u64
        ensures number { result ≡ self.now.nth }
        ensures stands { stands_for_back (suc self.now.nth) result self.now.backs ≡ true }
    {
        self.nth
    }

    /// Whether a write of an operation numbered above this one stands on a shard.
    pub fn is_noted(&self, shard: u32, upto: u64) -> bool
        ensures { result ≡ is_noted shard upto self.now.written }
    {
        self.written.is_on(shard, upto)
    }

    // Whether each going back was whole, the last notes aside.
    fn is_whole_but(&self, aside: usize) -> bool
        ensures { result ≡ (self.now.is_whole && is_back_whole self.now.back (drop aside self.now.written)) }
    {
        let unfinished = match self.back {
            None => false,
            Some((_, upto)) => self.written.is_above(aside, upto),
        };
        self.is_whole && !unfinished
    }

    /// Whether each going back so far was whole: of no operation that it went back over a write is left.
    pub fn is_whole(&self) -> bool
        ensures { result ≡ is_whole_now self.now }
    {
        self.is_whole_but(0)
    }

    /// The epoch that was answered at the first touch of a shard, if it was touched.
    pub fn seen(&self, shard: u32) -> Option<u64>
        ensures { result ≡ lookup (◌==◌ shard) self.now.touched }
    {
        self.epochs.seen(shard)
    }

    /// An operation on a shard.
    pub fn op(&self, shard: u32, nth: u64, op: &Op) -> Event
        ensures { (birth : BirthIs) → self.now.birth ≡ Some birth → result ≡ OpEvent self.now.tx birth nth (lookup (◌==◌ shard) self.now.touched) op.now }
    {
        Event::Op {
            tx: self.tx,
            birth: self.birth,
            nth,
            seen: self.seen(shard),
            op: KeptOp::new(op.copy()),
        }
    }

    /// The touched shards with their epochs: they rise, and are below 16.
    pub fn touched(&self, alloc: Global) -> Result<Touched, AllocError>
        ensures list { IfOk result (λ list. list ≡ self.now.touched) }
        ensures rise { numbers_rise (map (λ t. t.0) self.now.touched) ≡ true }
        ensures low { list_all (λ t. nat_lt t.0 16) self.now.touched ≡ true }
    {
        self.epochs.touched(alloc)
    }

    /// The lowest touched shard, if any was touched.
    pub fn home(&self) -> Option<u32>
        ensures none { IfNone result (self.now.touched ≡ []) }
        ensures lowest { IfSome result (λ home. (is_lowest home self.now.touched ≡ true) × (home < 16)) }
    {
        self.epochs.lowest()
    }

    /// A going back on a touched shard.
    pub fn roll_to(&self, shard: u32, nth: u64, upto: u64) -> Event
        ensures { (seen : ℕ) → lookup (◌==◌ shard) self.now.touched ≡ Some seen → result ≡ RollTo self.now.tx nth seen upto }
    {
        Event::RollTo {
            tx: self.tx,
            nth,
            seen: self.seen(shard).unwrap_or(0),
            upto,
        }
    }

    /// Notes an operation that may write, ahead of its answer, so that this takes no memory.
    pub fn note(&mut self, shard: u32, nth: u64, op: &Op) -> Result<(), AllocError>
        requires { op_may_write op.now ≡ true → nth ≡ suc self.old.nth }
        ensures ok { OnOk result (self.new ≡ with_note shard nth op.now self.old) }
        ensures err { OnErr result (self.new ≡ self.old) }
    {
        if may_write(op) {
            self.written.push(shard, nth)?;
        }
        Ok(())
    }

    /// It wasn't answered: its note goes.
    pub fn unnote(&mut self, op: &Op)
        ensures noted { (p : SessionState) (shard nth : ℕ) → self.old ≡ with_note shard nth op.now p → self.new ≡ p }
        ensures number { self.new.nth ≡ self.old.nth }
    {
        if may_write(op) {
            self.written.pop();
        }
    }

    /// It was answered: its note stays where it wrote.
    pub fn answered(&mut self, shard: u32, nth: u64, op: &Op, answer: &Answer, epoch: u64)
        requires shard { shard < 16 }
        requires number { self.old.nth ≤ nth }
        ensures { (p : SessionState) → self.old ≡ with_note shard nth op.now p → op_answered shard nth op.now p (Answered answer.now epoch) ≡ Some self.new }
    {
        let whole = self.is_whole_but(if may_write(op) { 1 } else { 0 });
        if may_write(op) && !has_written(op, answer) {
            self.written.pop();
        }
        self.number(nth, whole);
        self.scanned = scanned_by(shard, op);
        self.epochs.touch(shard, epoch);
    }

    /// The transaction died of it.
    pub fn died(&mut self, shard: u32, nth: u64, op: &Op)
        requires { self.old.nth ≤ nth }
        ensures { (p : SessionState) → self.old ≡ with_note shard nth op.now p → self.new ≡ record p { nth = nth; scanned = scan_shard shard op.now; phase = Ended } }
    {
        self.unnote(op);
        self.nth = nth;
        self.scanned = scanned_by(shard, op);
        self.stage = Stage::Ended;
    }

    // A new number, where each earlier going back was whole or wasn't.
    fn number(&mut self, nth: u64, whole: bool)
        requires { self.old.nth ≤ nth }
        ensures { self.new ≡ record self.old { nth = nth; is_whole = whole; back = None; scanned = None } }
    {
        self.nth = nth;
        self.is_whole = whole;
        self.back = None;
        self.scanned = None;
    }

    // A going back that takes the next number begins.
    fn begin_back(&mut self, nth: u64, upto: u64)
        requires number { (nth ≡ self.old.nth) ⊎ (nth ≡ suc self.old.nth) }
        requires stands { nth ≡ suc self.old.nth → stands_for_back nth upto self.old.backs ≡ true }
        ensures { self.new ≡ back_begun nth upto self.old }
    {
        if nth != self.nth {
            let whole = self.is_whole();
            self.number(nth, whole);
            self.backs.push(&(nth, upto));
        }
    }

    /// A going back took the later writes on a shard away.
    pub fn rolled(&mut self, shard: u32, nth: u64, upto: u64)
        requires number { (nth ≡ self.old.nth) ⊎ (nth ≡ suc self.old.nth) }
        requires stands { nth ≡ suc self.old.nth → stands_for_back nth upto self.old.backs ≡ true }
        ensures { went_back shard upto (back_begun nth upto self.old) Rolled ≡ Some self.new }
    {
        self.begin_back(nth, upto);
        self.written.take_away(shard, upto);
        self.back = Some((shard, upto));
    }

    /// The transaction died of a going back.
    pub fn died_back(&mut self, shard: u32, nth: u64, upto: u64)
        requires number { (nth ≡ self.old.nth) ⊎ (nth ≡ suc self.old.nth) }
        requires stands { nth ≡ suc self.old.nth → stands_for_back nth upto self.old.backs ≡ true }
        ensures { self.new ≡ record (back_begun nth upto self.old) { back = Some (shard, upto); phase = Ended } }
    {
        self.begin_back(nth, upto);
        self.back = Some((shard, upto));
        self.stage = Stage::Ended;
    }

    /// Its request stands at its home.
    pub fn requested(&mut self, home: u32)
        ensures { self.new ≡ record self.old { phase = Standing home } }
    {
        self.stage = Stage::Standing(home);
    }

    /// It died, or was dropped.
    pub fn ended(&mut self)
        ensures { self.new ≡ record self.old { phase = Ended } }
    {
        self.stage = Stage::Ended;
    }

    /// It was told that it is acknowledged.
    pub fn told(&mut self)
        ensures { self.new ≡ record self.old { phase = Told } }
    {
        self.stage = Stage::Told;
    }

    /// It was told that it is aborted.
    pub fn refused(&mut self)
        ensures { self.new ≡ record self.old { phase = Refused } }
    {
        self.stage = Stage::Refused;
    }
}

fn may_write(op: &Op) -> bool
    ensures { result ≡ op_may_write op.now }
{
    matches!(op, Op::Put(..) | Op::Del(_) | Op::Add(..))
}

fn has_written(op: &Op, answer: &Answer) -> bool
    ensures { result ≡ op_has_written op.now answer.now }
{
    match (op, answer) {
        (Op::Put(..), _) => true,
        (Op::Del(_), Answer::Value(before)) => before.is_some(),
        (Op::Add(..), Answer::Added(found)) => *found,
        _ => false,
    }
}

// The shard of a part scan.
fn scanned_by(shard: u32, op: &Op) -> Option<u32>
    ensures { result ≡ scan_shard shard op.now }
{
    match op {
        Op::Scan(..) => Some(shard),
        _ => None,
    }
}
