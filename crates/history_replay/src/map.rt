// The map.

ghost use Rattle.std.specs.Prelude.{◌≡◌, ◌≤◌, [], Some, None, IfOk, OnOk, OnErr};
ghost use Rattle.std.specs.Ordering.{nat_cmp};
ghost use Rattle.std.specs.BTreeMap.Range.{entries_between};
ghost use Rattle.std.specs.declared.ops.Bound.TheVariants.{Included};
ghost use Rattle.clv_base.specs.Maps.{is_number as is_a_number, map_add, map_get, map_set, map_between, op_answer, op_after};

use clv_base::changes::{is_number, plus};
use clv_base::lists::Pairs;
use clv_base::ops::{Answer, Op};
use clv_base::values::Value;
use std::alloc::{AllocError, Global};
use std::collections::BTreeMap;
use std::marker::Model;

fn value_at(pairs: &BTreeMap<u64, Value>, key: u64) -> Option<Value>
    ensures { result ≡ map_get key pairs.now.entries }
{
    pairs.get(&key).map(|value| value.copy())
}

fn put_at(
    pairs: &mut BTreeMap<u64, Value>,
    key: u64,
    value: Value,
) -> Result<Option<Value>, AllocError>
    ensures before { IfOk result (λ before. before ≡ map_get key pairs.old.entries) }
    ensures set { OnOk result (pairs.new.entries ≡ map_set key (Some value) pairs.old.entries) }
    ensures err { OnErr result (pairs.new.entries ≡ pairs.old.entries) }
{
    Ok(pairs.insert(key, value)?)
}

fn take_at(pairs: &mut BTreeMap<u64, Value>, key: u64) -> Option<Value>
    ensures before { result ≡ map_get key pairs.old.entries }
    ensures removed { pairs.new.entries ≡ map_set key None pairs.old.entries }
{
    let _count = pairs.len();
    pairs.remove(&key)
}

// An entry, once more.
fn copied(pair: (&u64, &Value)) -> (u64, Value)
    ensures { result ≡ (pair.entry.0.now, pair.entry.1.now) }
{
    (*pair.0, pair.1.copy())
}

fn range_of(
    alloc: Global,
    pairs: &BTreeMap<u64, Value>,
    low: u64,
    high: u64,
) -> Result<Vec<(u64, Value)>, AllocError>
    requires { low ≤ high }
    ensures { IfOk result (λ found. found.items ≡ entries_between nat_cmp (Included low) (Included high) pairs.now.entries) }
{
    pairs.range(low..=high).map(copied).collect(alloc)
}

fn pairs_between(
    alloc: Global,
    pairs: &BTreeMap<u64, Value>,
    low: u64,
    high: u64,
) -> Result<Vec<(u64, Value)>, AllocError>
    ensures { IfOk result (λ found. found.items ≡ map_between low high pairs.now.entries) }
{
    if high < low {
        return Ok(Vec::new(alloc));
    }
    range_of(alloc, pairs, low, high)
}

fn pairs_of(alloc: Global, pairs: &BTreeMap<u64, Value>) -> Result<Vec<(u64, Value)>, AllocError>
    ensures { IfOk result (λ found. found.items ≡ pairs.now.entries) }
{
    pairs.iter().map(copied).collect(alloc)
}

fn copy_of(pairs: &BTreeMap<u64, Value>) -> Result<BTreeMap<u64, Value>, AllocError>
    ensures { IfOk result (λ copy. copy.entries ≡ pairs.now.entries) }
{
    pairs.clone()
}

/// A map from keys to values.
#[derive(Drop)]
pub struct KeyMap {
    pairs: BTreeMap<u64, Value>,
}

impl Model for KeyMap {
    ghost use Rattle.clv_base.specs.Maps.{KeyMap as Pairs_of};

    ghost Value = { Pairs_of };

    ghost view = { λ m. m.pairs.entries };
}

impl KeyMap {
    /// The empty map. Takes no memory.
    pub fn new(alloc: Global) -> KeyMap
        ensures { result ≡ [] }
    {
        KeyMap {
            pairs: BTreeMap::new(alloc),
        }
    }

    /// The same map once more.
    pub fn copy(&self) -> Result<KeyMap, AllocError>
        ensures { IfOk result (λ copy. copy ≡ self.now) }
    {
        Ok(KeyMap {
            pairs: copy_of(&self.pairs)?,
        })
    }

    /// The value at a key.
    pub fn get(&self, key: u64) -> Option<Value>
        ensures { result ≡ map_get key self.now }
    {
        value_at(&self.pairs, key)
    }

    /// Sets the value at a key, and answers the one before. An `Err` changes nothing.
    pub fn set(&mut self, key: u64, value: Value) -> Result<Option<Value>, AllocError>
        ensures before { IfOk result (λ before. before ≡ map_get key self.old) }
        ensures set { OnOk result (self.new ≡ map_set key (Some value) self.old) }
        ensures err { OnErr result (self.new ≡ self.old) }
    {
        put_at(&mut self.pairs, key, value)
    }

    /// Takes a key away, and answers the value before. Takes no memory.
    pub fn remove(&mut self, key: u64) -> Option<Value>
        ensures before { result ≡ map_get key self.old }
        ensures removed { self.new ≡ map_set key None self.old }
    {
        take_at(&mut self.pairs, key)
    }

    /// The value that a key has from now on, or none. An `Err` changes nothing.
    pub fn set_to(&mut self, key: u64, after: Option<Value>) -> Result<(), AllocError>
        ensures set { OnOk result (self.new ≡ map_set key after self.old) }
        ensures err { OnErr result (self.new ≡ self.old) }
    {
        match after {
            Some(value) => {
                self.set(key, value)?;
            }
            None => {
                self.remove(key);
            }
        }
        Ok(())
    }

    /// The pairs from a key to another, both in, by rising keys.
    pub fn between(
        &self,
        alloc: Global,
        low: u64,
        high: u64,
    ) -> Result<Vec<(u64, Value)>, AllocError>
        ensures { IfOk result (λ pairs. pairs.items ≡ map_between low high self.now) }
    {
        pairs_between(alloc, &self.pairs, low, high)
    }

    /// All pairs, by rising keys.
    pub fn pairs(&self, alloc: Global) -> Result<Vec<(u64, Value)>, AllocError>
        ensures { IfOk result (λ pairs. pairs.items ≡ self.now) }
    {
        pairs_of(alloc, &self.pairs)
    }

    /// Adds to the number at a key, if there is one, and answers whether there is. An `Err` changes nothing.
    pub fn add(&mut self, key: u64, by: u64) -> Result<bool, AllocError>
        ensures before { IfOk result (λ found. found ≡ is_a_number (map_get key self.old)) }
        ensures added { OnOk result (self.new ≡ map_add key by self.old) }
        ensures err { OnErr result (self.new ≡ self.old) }
    {
        let before = self.get(key);
        self.set_to(key, plus(&before, by))?;
        Ok(is_number(&before))
    }

    /// Does an operation, and gives its answer. An `Err` changes nothing.
    pub fn apply(&mut self, alloc: Global, op: &Op) -> Result<Answer, AllocError>
        ensures answer { IfOk result (λ answer. answer ≡ op_answer op.now self.old) }
        ensures after { OnOk result (self.new ≡ op_after op.now self.old) }
        ensures err { OnErr result (self.new ≡ self.old) }
    {
        match op {
            Op::Get(key) => Ok(Answer::Value(self.get(*key))),
            Op::Put(key, value) => Ok(Answer::Value(self.set(*key, value.copy())?)),
            Op::Del(key) => Ok(Answer::Value(self.remove(*key))),
            Op::Scan(low, high) => Ok(Answer::Pairs(Pairs::new(self.between(alloc, *low, *high)?))),
            Op::Add(key, by) => Ok(Answer::Added(self.add(*key, *by)?)),
        }
    }
}
