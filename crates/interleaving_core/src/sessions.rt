// A session's place in its last transaction.
ghost use Rattle.std.specs.Prelude.{◌≡◌, ◌==◌, ◌&&◌, ◌<◌, suc, true, map, nat_lt, None, Some, is_some, IfOk, OnOk};
ghost use Rattle.std.specs.List.{list_all};
ghost use Rattle.std.specs.Map.{lookup};
ghost use Rattle.clv_base.specs.FileRules.{numbers_rise, tx_has_spelling};
ghost use Rattle.clv_base.specs.Orders.{tx_same};
ghost use Rattle.clv_base.specs.declared.events.Outcome.TheVariants.{Answered, Rolled};
ghost use Rattle.clv_base.specs.Backs.{has_written as writes};
ghost use Rattle.clv_base.specs.Sessions.{no_session, begun, touch, scan_shard, is_touching as touches, same_birth, may_drop as drops, stands_at as stands, is_number as numbers, goes_on_scan, follows_birth as follows, is_session_number, numbered, is_whole_now as whole_now, op_answered, back_for, went_back, Ended, Standing, Told, Refused};
ghost use Rattle.cluster_turns.specs.Stages.{phase_of};

use crate::goings_back::GoingsBack;
use cluster_turns::{Stage, TouchedShards};
use clv_base::lists::Touched;
use clv_base::names::{Birth, TxId};
use clv_base::ops::{Answer, Op};
use std::alloc::{AllocError, Global};
use std::marker::Model;

/// What a walker's session of run 1 has made: its last transaction, how far that is, and what it went back over.
#[derive(Drop)]
pub struct Session {
    pub(crate) tx: TxId,
    birth: Option<Birth>,
    nth: u64,
    scanned: Option<u32>,
    touched: TouchedShards,
    stage: Stage,
    gone_back: GoingsBack,
}

impl Model for Session {
    ghost use Rattle.std.specs.Prelude.{◌≡◌};
    ghost use Rattle.clv_base.specs.Sessions.{SessionState};
    ghost use Rattle.cluster_turns.specs.Stages.{phase_of};
    ghost use Rattle.interleaving_core.specs.Placed.{IsPlaced};

    ghost Value = { SessionState };

    ghost view = { λ s. record { tx = s.tx; birth = s.birth; nth = s.nth; scanned = s.scanned; touched = s.touched; phase = phase_of s.stage; back = s.gone_back.back; written = s.gone_back.written; backs = s.gone_back.backs; is_whole = s.gone_back.is_whole } };

    ghost invariant = { λ s. IsPlaced s.tx.run s.tx.serial (phase_of s.stage) };
}

fn scanned_by(shard: u32, op: &Op) -> Option<u32>
    ensures { result ≡ scan_shard shard op.now }
{
    match op {
        Op::Scan(..) => Some(shard),
        _ => None,
    }
}

fn is_touching(stage: Stage) -> bool
    ensures { result ≡ touches (phase_of stage) }
{
    match stage {
        Stage::Touching => true,
        _ => false,
    }
}

fn may_drop(stage: Stage) -> bool
    ensures { result ≡ drops (phase_of stage) }
{
    match stage {
        Stage::Touching | Stage::Ended | Stage::Refused => true,
        Stage::Standing(_) | Stage::Told => false,
    }
}

fn stands_at(shard: u32, stage: Stage) -> bool
    ensures { result ≡ stands shard (phase_of stage) }
{
    match stage {
        Stage::Standing(home) => shard == home,
        _ => false,
    }
}

fn has_written(op: &Op, answer: &Answer) -> bool
    ensures { result ≡ writes op.now answer.now }
{
    match (op, answer) {
        (Op::Put(..), _) => true,
        (Op::Del(_), Answer::Value(before)) => before.is_some(),
        (Op::Add(..), Answer::Added(found)) => *found,
        _ => false,
    }
}

impl Session {
    /// The session of a walker that has made nothing.
    pub fn new(alloc: Global, walker: u32) -> Session
        ensures { result ≡ no_session 1 walker }
    {
        let tx = TxId {
            run: 1,
            session: walker,
            serial: 0,
        };
        Session {
            tx,
            birth: None,
            nth: 0,
            scanned: None,
            touched: TouchedShards::new(),
            stage: Stage::Ended,
            gone_back: GoingsBack::new(alloc),
        }
    }

    /// The name of the last transaction, whose serial is 0 before the first.
    pub(crate) fn tx(&self) -> TxId
        ensures { result ≡ self.now.tx }
    {
        self.tx
    }

    /// Whether this is the last transaction.
    pub(crate) fn is_last(&self, tx: TxId) -> bool
        ensures last { result ≡ tx_same tx self.now.tx }
        ensures spelled { result ≡ true → 0 < self.now.tx.serial → is_session_number self.now.tx.session ≡ true → tx_has_spelling tx ≡ true }
    {
        tx == self.tx
    }

    pub(crate) fn is_touching(&self) -> bool
        ensures touching { result ≡ touches self.now.phase }
        ensures begun { result ≡ true → 0 < self.now.tx.serial }
    {
        is_touching(self.stage)
    }

    pub(crate) fn may_drop(&self) -> bool
        ensures { result ≡ drops self.now.phase }
    {
        may_drop(self.stage)
    }

    pub(crate) fn stands_at(&self, shard: u32) -> bool
        ensures stands { result ≡ stands shard self.now.phase }
        ensures begun { result ≡ true → 0 < self.now.tx.serial }
    {
        stands_at(shard, self.stage)
    }

    pub(crate) fn has_birth(&self, birth: Birth) -> bool
        ensures { result ≡ same_birth self.now.birth birth }
    {
        match self.birth {
            Some(own) => own == birth,
            None => false,
        }
    }

    /// Whether the next transaction may have this birth.
    pub(crate) fn is_followed(&self, birth: Birth) -> bool
        ensures { result ≡ follows self.now.birth birth self.now.phase }
    {
        match self.birth {
            Some(last) => last < birth || (last == birth && may_drop(self.stage)),
            None => true,
        }
    }

    /// The epoch that was answered at the first touch of a shard, if it was touched.
    pub(crate) fn seen(&self, shard: u32) -> Option<u64>
        ensures { result ≡ lookup (◌==◌ shard) self.now.touched }
    {
        self.touched.seen(shard)
    }

    /// The touched shards with their epochs: they rise, and are below 16.
    pub(crate) fn touched(&self, alloc: Global) -> Result<Touched, AllocError>
        ensures list { IfOk result (λ list. list ≡ self.now.touched) }
        ensures rise { numbers_rise (map (λ t. t.0) self.now.touched) ≡ true }
        ensures low { list_all (λ t. nat_lt t.0 16) self.now.touched ≡ true }
    {
        self.touched.touched(alloc)
    }

    /// Whether each going back so far was whole.
    pub(crate) fn is_whole(&self) -> bool
        ensures { result ≡ whole_now self.now }
    {
        self.gone_back.is_whole()
    }

    // Whether it is the number after the last one.
    fn is_next(&self, nth: u64) -> bool
        ensures { result ≡ (nth == suc self.now.nth) }
    {
        nth != 0 && nth - 1 == self.nth
    }

    // Whether the operation goes on the last part scan.
    fn scans_on(&self, shard: u32, nth: u64, op: &Op) -> bool
        ensures { result ≡ ((nth == self.now.nth) && goes_on_scan self.now.scanned (scan_shard shard op.now)) }
    {
        match (self.scanned, scanned_by(shard, op)) {
            (Some(last), Some(next)) => nth == self.nth && last < next,
            _ => false,
        }
    }

    /// Whether the operation has its number.
    pub(crate) fn is_number(&self, shard: u32, nth: u64, op: &Op) -> bool
        ensures { result ≡ numbers self.now shard nth op.now }
    {
        self.is_next(nth) || self.scans_on(shard, nth, op)
    }

    /// Whether the going back has its number.
    pub(crate) fn is_back_number(&self, shard: u32, nth: u64, upto: u64) -> bool
        ensures { result ≡ is_some (back_for self.now shard nth upto) }
    {
        if self.is_next(nth) {
            upto < nth
        } else {
            nth == self.nth && self.gone_back.goes_on(shard, upto)
        }
    }

    /// The next transaction begins.
    pub(crate) fn begin(&mut self, alloc: Global, tx: TxId, birth: Birth)
        requires { (tx.run ≡ 1) × (0 < tx.serial) }
        ensures { self.new ≡ begun self.old tx birth }
    {
        self.tx = tx;
        self.birth = Some(birth);
        self.nth = 0;
        self.scanned = None;
        self.touched = TouchedShards::new();
        self.stage = Stage::Touching;
        self.gone_back = GoingsBack::new(alloc);
    }

    // A new number.
    fn number(&mut self, nth: u64)
        ensures { self.new ≡ numbered nth self.old }
    {
        self.nth = nth;
        self.scanned = None;
        self.gone_back.number();
    }

    /// The operation was answered.
    pub(crate) fn answered(
        &mut self,
        shard: u32,
        nth: u64,
        op: &Op,
        answer: &Answer,
        epoch: u64,
    ) -> Result<(), AllocError>
        requires { shard < 16 }
        ensures { OnOk result (op_answered shard nth op.now self.old (Answered answer.now epoch) ≡ Some self.new) }
    {
        self.number(nth);
        self.scanned = scanned_by(shard, op);
        self.touched.touch(shard, epoch);
        if has_written(op, answer) {
            self.gone_back.wrote(shard, nth)?;
        }
        Ok(())
    }

    /// The transaction died of it.
    pub(crate) fn died(&mut self, shard: u32, nth: u64, op: &Op)
        ensures { self.new ≡ record self.old { nth = nth; scanned = scan_shard shard op.now; phase = Ended } }
    {
        self.nth = nth;
        self.scanned = scanned_by(shard, op);
        self.stage = Stage::Ended;
    }

    /// A going back begins, or goes on.
    pub(crate) fn goes_back(&mut self, shard: u32, nth: u64, upto: u64) -> Result<(), AllocError>
        requires { is_some (back_for self.old shard nth upto) ≡ true }
        ensures { OnOk result (back_for self.old shard nth upto ≡ Some self.new) }
    {
        if self.is_next(nth) {
            self.nth = nth;
            self.scanned = None;
            self.gone_back.begin(nth, upto)?;
        }
        Ok(())
    }

    /// It took the later writes on a shard away.
    pub(crate) fn went_back(&mut self, shard: u32, upto: u64)
        ensures { went_back shard upto self.old Rolled ≡ Some self.new }
    {
        self.gone_back.went(shard, upto);
    }

    /// The transaction died of a going back.
    pub(crate) fn died_back(&mut self, shard: u32, upto: u64)
        ensures { self.new ≡ record self.old { back = Some (shard, upto); phase = Ended } }
    {
        self.gone_back.died(shard, upto);
        self.stage = Stage::Ended;
    }

    /// Its request stands at its home.
    pub(crate) fn requested(&mut self, home: u32)
        requires { 0 < self.old.tx.serial }
        ensures { self.new ≡ record self.old { phase = Standing home } }
    {
        self.stage = Stage::Standing(home);
    }

    /// It died, or was dropped.
    pub(crate) fn ended(&mut self)
        ensures { self.new ≡ record self.old { phase = Ended } }
    {
        self.stage = Stage::Ended;
    }

    /// It was told that it is acknowledged.
    pub(crate) fn told(&mut self)
        requires { 0 < self.old.tx.serial }
        ensures { self.new ≡ record self.old { phase = Told } }
    {
        self.stage = Stage::Told;
    }

    /// It was told that it is aborted.
    pub(crate) fn refused(&mut self)
        requires { 0 < self.old.tx.serial }
        ensures { self.new ≡ record self.old { phase = Refused } }
    {
        self.stage = Stage::Refused;
    }
}
