//! All that an operation does, before it does anything.
ghost use Rattle.std.specs.Prelude.{◌≡◌, IfOk};
ghost use Rattle.clv_base.specs.declared.values.Value.{Value as ValueType};
ghost use Rattle.clv_base.specs.Needs.{needs_of, answer_of, live_of, inserts, writes_of};
ghost use Rattle.shard_ops.specs.Planned.{needed, insert_of, write_of, insert_by, write_by, IsPlanOf};

use crate::needs::{add_need, del_need, get_need, put_need};
use crate::scan::{pairs_of, scan_needs};
use clv_base::changes::{Change, is_number, plus};
use clv_base::lists::Pairs;
use clv_base::modes::{Anchor, Found, Need};
use clv_base::ops::{Answer, Op};
use clv_base::values::{Value, copy_of};
use lock_table::Memory;
use ordered_store::Store;
use std::alloc::{AllocError, Global};
use std::slice::from_ref;

/// A record that is inserted: its key, and the anchor whose gap it splits.
#[derive(Clone, Copy, PartialEq, Eq)]
pub struct Insert {
    pub key: u64,
    pub lower: Anchor,
}

/// A key that is written: what is done to its value, and what it is then.
#[derive(PartialEq, Eq, Drop)]
pub struct Write {
    pub key: u64,
    pub change: Change,
    pub after: Option<Value>,
}

/// The locks that an operation needs, in order. One on a key needs one lock, for which no list is made.
#[derive(Drop)]
pub enum Needs {
    One(Need),
    Several(Vec<Need>),
}

impl Write {
    /// The same write once more. Takes no memory.
    pub fn copy(&self) -> Write
        ensures { result ≡ self.now }
    {
        Write {
            key: self.key,
            change: self.change.copy(),
            after: copy_of(&self.after),
        }
    }
}

impl Needs {
    /// The locks.
    pub fn as_slice(&self) -> &[Need]
        ensures { result.now ≡ needed self.now }
    {
        match self {
            Needs::One(need) => from_ref(need),
            Needs::Several(needs) => needs,
        }
    }
}

/// What an operation comes to where it is granted: the locks that it needs, its answer, the record that it inserts, and what it writes.
#[derive(Drop)]
pub struct Plan {
    pub needs: Needs,
    pub answer: Answer,
    pub insert: Option<Insert>,
    pub write: Option<Write>,
}

fn live(found: Found) -> Option<Value>
    ensures { result ≡ live_of found }
{
    match found {
        Found::Live(value) => Some(value),
        Found::Ghost | Found::Absent => None,
    }
}

fn plan_get<S: Store>(store: &S, key: u64) -> Plan
    ensures { IsPlanOf (Op.Get key) (S.records store.now) result }
{
    let found = store.get(key);
    Plan {
        needs: Needs::One(get_need(store, key, &found)),
        answer: Answer::Value(live(found)),
        insert: None,
        write: None,
    }
}

/// The record that a Put inserts, where there is none.
fn put_insert<S: Store>(store: &S, key: u64, found: &Found) -> Option<Insert>
    ensures { (value : ValueType) → result ≡ insert_by (S.records store.now) (inserts (Op.Put key value) found.now) }
{
    match found {
        Found::Live(_) | Found::Ghost => None,
        Found::Absent => Some(Insert {
            key,
            lower: store.anchor_of(key),
        }),
    }
}

fn plan_put<S: Store>(store: &S, key: u64, value: &Value) -> Plan
    ensures { IsPlanOf (Op.Put key value.now) (S.records store.now) result }
{
    let found = store.get(key);
    let need = put_need(store, key, &found);
    let insert = put_insert(store, key, &found);
    let before = live(found);
    Plan {
        needs: Needs::One(need),
        answer: Answer::Value(copy_of(&before)),
        insert,
        write: Some(Write {
            key,
            change: Change::Sets(before, Some(value.copy())),
            after: Some(value.copy()),
        }),
    }
}

/// What a Del writes, where there is a value.
fn del_write(key: u64, before: Option<Value>) -> Option<Write>
    ensures { result ≡ write_by before (writes_of (Op.Del key) before) }
{
    match before {
        Some(value) => Some(Write {
            key,
            change: Change::Sets(Some(value), None),
            after: None,
        }),
        None => None,
    }
}

fn plan_del<S: Store>(store: &S, key: u64) -> Plan
    ensures { IsPlanOf (Op.Del key) (S.records store.now) result }
{
    let found = store.get(key);
    let need = del_need(store, key, &found);
    let before = live(found);
    Plan {
        needs: Needs::One(need),
        answer: Answer::Value(copy_of(&before)),
        insert: None,
        write: del_write(key, before),
    }
}

/// What an Add writes, where there is a number.
fn add_write(key: u64, by: u64, before: &Option<Value>) -> Option<Write>
    ensures { result ≡ write_by before.now (writes_of (Op.Add key by) before.now) }
{
    if is_number(before) {
        Some(Write {
            key,
            change: Change::Adds(by),
            after: plus(before, by),
        })
    } else {
        None
    }
}

fn plan_add<S: Store>(store: &S, key: u64, by: u64) -> Plan
    ensures { IsPlanOf (Op.Add key by) (S.records store.now) result }
{
    let found = store.get(key);
    let need = add_need(store, key, by, &found);
    let before = live(found);
    Plan {
        needs: Needs::One(need),
        answer: Answer::Added(is_number(&before)),
        insert: None,
        write: add_write(key, by, &before),
    }
}

fn plan_scan<S: Store>(alloc: Global, store: &S, low: u64, high: u64) -> Result<Plan, AllocError>
    ensures { IfOk result (IsPlanOf (Op.Scan low high) (S.records store.now)) }
{
    let rows = store.range(alloc, low, high)?;
    let needs = scan_needs(alloc, store, low, &rows)?;
    let pairs = pairs_of(alloc, &rows)?;
    Ok(Plan {
        needs: Needs::Several(needs),
        answer: Answer::Pairs(Pairs::new(pairs)),
        insert: None,
        write: None,
    })
}

fn plan_by<S: Store>(alloc: Global, store: &S, op: &Op) -> Result<Plan, AllocError>
    ensures { IfOk result (IsPlanOf op.now (S.records store.now)) }
{
    match op {
        Op::Get(key) => Ok(plan_get(store, *key)),
        Op::Put(key, value) => Ok(plan_put(store, *key, value)),
        Op::Del(key) => Ok(plan_del(store, *key)),
        Op::Scan(low, high) => plan_scan(alloc, store, *low, *high),
        Op::Add(key, by) => Ok(plan_add(store, *key, *by)),
    }
}

/// What an operation comes to on these records, where it is granted. The store isn't changed; the only error is want of memory, of a scan alone.
pub fn plan_of<S: Store>(alloc: Global, store: &S, op: &Op) -> Result<Plan, Memory>
    ensures needs { IfOk result (λ p. needed p.needs ≡ needs_of op.now (S.records store.now)) }
    ensures answer { IfOk result (λ p. p.answer ≡ answer_of op.now (S.records store.now)) }
    ensures insert { IfOk result (λ p. p.insert ≡ insert_of op.now (S.records store.now)) }
    ensures write { IfOk result (λ p. p.write ≡ write_of op.now (S.records store.now)) }
{
    match plan_by(alloc, store, op) {
        Ok(plan) => Ok(plan),
        Err(_) => Err(Memory),
    }
}
