// Whether a session may make an event.
ghost use Rattle.std.specs.Prelude.{◌≡◌, ◌<◌, ◌≤◌, ◌==◌, ◌&&◌, not, true, false, map, nat_lt, is_some, Some, IfOk};
ghost use Rattle.std.specs.List.{list_all};
ghost use Rattle.std.specs.Map.{lookup};
ghost use Rattle.clv_base.specs.declared.ops.Answer.TheVariants.{Value};
ghost use Rattle.clv_base.specs.declared.events.Event.TheVariants.{Request, RollTo};
ghost use Rattle.clv_base.specs.declared.events.Outcome.TheVariants.{Answered};
ghost use Rattle.clv_base.specs.FileRules.{tx_has_spelling, numbers_rise};
ghost use Rattle.clv_base.specs.LogRules.{same_option};
ghost use Rattle.clv_base.specs.Orders.{tx_same};
ghost use Rattle.clv_base.specs.Sessions.{lies_in as lies, begins as begins_in, is_number as numbers, session_for, op_in_session, same_touched as same_touched_in, is_lowest as lowest, session_after, is_touching as touches, stands_at as stands, may_drop as drops, is_of_session, is_session_number, is_whole_now, back_for};
ghost use Rattle.clv_base.specs.Shards.{in_span as in_span_of};
ghost use Rattle.journal_laws.specs.Offers.{hoped_for};
ghost use Rattle.interleaving_core.specs.Naming.{shards_fit, names_fit};

use crate::sessions::Session;
use clv_base::events::Event;
use clv_base::lists::Touched;
use clv_base::names::{Birth, TxId};
use clv_base::ops::Op;
use clv_base::splits::Splits;
use std::alloc::{AllocError, Global};

fn in_span(splits: &Splits, shard: u32, key: u64) -> bool
    ensures { result ≡ in_span_of splits.now shard key }
{
    match splits.span(shard) {
        None => false,
        Some((first, last)) => first <= key && key <= last,
    }
}

fn lies_in(splits: &Splits, shard: u32, op: &Op) -> bool
    ensures { result ≡ lies splits.now shard op.now }
{
    match op {
        Op::Get(key) | Op::Put(key, _) | Op::Del(key) | Op::Add(key, _) => {
            in_span(splits, shard, *key)
        }
        Op::Scan(low, high) => in_span(splits, shard, *low) && in_span(splits, shard, *high),
    }
}

fn same_touched(touched: &[(u32, u64)], other: &[(u32, u64)]) -> bool
    ensures { result ≡ same_touched_in touched.now other.now }
{
    match touched {
        [] => match other {
            [] => true,
            [_, ..] => false,
        },
        [part, parts @ ..] => match other {
            [] => false,
            [second, others @ ..] => {
                part.0 == second.0 && part.1 == second.1 && same_touched(parts, others)
            }
        },
    }
}

fn is_lowest(shard: u32, touched: &[(u32, u64)]) -> bool
    ensures { result ≡ lowest shard touched.now }
{
    match touched {
        [] => false,
        [part, ..] => shard == part.0,
    }
}

impl Session {
    pub(crate) fn begins(&self, tx: TxId, birth: Birth) -> bool
        ensures begins { result ≡ begins_in self.now tx birth }
        ensures named { result ≡ true → (tx.run ≡ 1) × (tx.session ≡ self.now.tx.session) × (0 < tx.serial) }
        ensures spelled { result ≡ true → is_session_number self.now.tx.session ≡ true → tx_has_spelling tx ≡ true }
    {
        let last = self.tx;
        tx.run == last.run
            && tx.session == last.session
            && last.serial < tx.serial
            && birth.session == tx.session
            && self.is_followed(birth)
    }

    // Whether the operation has its number, lies in the shard, and names the epoch that was answered there.
    fn fits(&self, splits: &Splits, shard: u32, nth: u64, seen: Option<u64>, op: &Op) -> bool
        ensures { result ≡ (numbers self.now shard nth op.now && lies splits.now shard op.now && same_option seen (lookup (◌==◌ shard) self.now.touched)) }
    {
        self.is_number(shard, nth, op) && lies_in(splits, shard, op) && seen == self.seen(shard)
    }

    // The same for the first operation of a transaction.
    fn may_begin(
        &self,
        splits: &Splits,
        shard: u32,
        tx: TxId,
        birth: Birth,
        nth: u64,
        seen: Option<u64>,
        op: &Op,
    ) -> bool
        requires { tx_same tx self.now.tx ≡ false }
        ensures may { result ≡ is_some (op_in_session splits.now shard nth seen op.now (Answered (Value None) 0) (session_for self.now tx birth)) }
        ensures spelled { result ≡ true → is_session_number self.now.tx.session ≡ true → tx_has_spelling tx ≡ true }
    {
        self.begins(tx, birth) && nth == 1 && lies_in(splits, shard, op) && seen.is_none()
    }

    fn may_op(
        &self,
        splits: &Splits,
        shard: u32,
        tx: TxId,
        birth: Birth,
        nth: u64,
        seen: Option<u64>,
        op: &Op,
    ) -> bool
        ensures may { result ≡ is_some (op_in_session splits.now shard nth seen op.now (Answered (Value None) 0) (session_for self.now tx birth)) }
        ensures spelled { result ≡ true → is_session_number self.now.tx.session ≡ true → tx_has_spelling tx ≡ true }
    {
        if self.is_last(tx) {
            self.is_touching() && self.has_birth(birth) && self.fits(splits, shard, nth, seen, op)
        } else {
            self.may_begin(splits, shard, tx, birth, nth, seen, op)
        }
    }

    // Whether the transaction may go back so on a shard.
    fn may_go_back(&self, shard: u32, tx: TxId, nth: u64, seen: u64, upto: u64) -> bool
        ensures may { result ≡ (tx_same tx self.now.tx && touches self.now.phase && same_option (Some seen) (lookup (◌==◌ shard) self.now.touched) && is_some (back_for self.now shard nth upto)) }
        ensures spelled { result ≡ true → is_session_number self.now.tx.session ≡ true → tx_has_spelling tx ≡ true }
    {
        self.is_last(tx)
            && self.is_touching()
            && self.seen(shard) == Some(seen)
            && self.is_back_number(shard, nth, upto)
    }

    // Whether each going back was whole, these are the touched shards, and this one is the lowest of them.
    fn asks(&self, shard: u32, tx: TxId, touched: &[(u32, u64)], own: &[(u32, u64)]) -> bool
        requires own { own.now ≡ self.now.touched }
        requires rise { numbers_rise (map (λ t. t.0) own.now) ≡ true }
        requires low { list_all (λ t. nat_lt t.0 16) own.now ≡ true }
        ensures may { result ≡ (tx_same tx self.now.tx && touches self.now.phase && is_whole_now self.now && same_touched_in touched.now self.now.touched && lowest shard touched.now) }
        ensures fits { result ≡ true → shards_fit shard touched.now ≡ true }
        ensures spelled { result ≡ true → is_session_number self.now.tx.session ≡ true → tx_has_spelling tx ≡ true }
    {
        if !self.is_last(tx) || !self.is_touching() || !self.is_whole() {
            return false;
        }
        if !same_touched(touched, own) {
            return false;
        }
        is_lowest(shard, touched)
    }

    fn may_request(
        &self,
        alloc: Global,
        shard: u32,
        tx: TxId,
        touched: &Touched,
    ) -> Result<bool, AllocError>
        requires { is_session_number self.now.tx.session ≡ true }
        ensures may { IfOk result (λ may. may ≡ (tx_same tx self.now.tx && touches self.now.phase && is_whole_now self.now && same_touched_in touched.now self.now.touched && lowest shard touched.now)) }
        ensures fits { IfOk result (λ may. may ≡ true → names_fit shard (Request tx touched.now) ≡ true) }
    {
        let own = self.touched(alloc)?;
        let may = self.asks(shard, tx, touched.as_slice(), own.as_slice());
        Ok(may)
    }

    fn may_look(&self, shard: u32, tx: TxId) -> bool
        ensures spelled { result ≡ true → is_session_number self.now.tx.session ≡ true → tx_has_spelling tx ≡ true }
        ensures may { result ≡ (tx_same tx self.now.tx && stands shard self.now.phase) }
    {
        self.is_last(tx) && self.stands_at(shard)
    }

    fn may_be_dropped(&self, tx: TxId) -> bool
        ensures spelled { result ≡ true → is_session_number self.now.tx.session ≡ true → tx_has_spelling tx ≡ true }
        ensures may { result ≡ (tx_same tx self.now.tx && drops self.now.phase && not (self.now.tx.serial == 0)) }
    {
        self.is_last(tx) && self.may_drop() && self.tx().serial != 0
    }

    /// Whether the session may make the event on a shard, whatever its outcome. Then the event's transaction and shards are such as a log
    /// may name. An `Err` is want of memory.
    pub fn may_make(
        &self,
        alloc: Global,
        splits: &Splits,
        shard: u32,
        event: &Event,
    ) -> Result<bool, AllocError>
        requires { is_session_number self.now.tx.session ≡ true }
        ensures may { IfOk result (λ may. may ≡ is_some (session_after splits.now shard self.now event.now (hoped_for event.now))) }
        ensures fits { IfOk result (λ may. may ≡ true → names_fit shard event.now ≡ true) }
    {
        match event {
            Event::Op {
                tx,
                birth,
                nth,
                seen,
                op,
            } => Ok(self.may_op(splits, shard, *tx, *birth, *nth, *seen, &op.op())),
            Event::RollTo {
                tx,
                nth,
                seen,
                upto,
            } => Ok(self.may_go_back(shard, *tx, *nth, *seen, *upto)),
            Event::Request { tx, parts } => self.may_request(alloc, shard, *tx, parts),
            Event::Look { tx } => Ok(self.may_look(shard, *tx)),
            Event::Drop { tx } => Ok(self.may_be_dropped(*tx)),
            _ => Ok(true),
        }
    }
}
