// What a session asks for, and what it is answered.

ghost use Rattle.std.specs.Prelude.{◌≡◌, ⊤};

use crate::lists::Pairs;
use crate::values::Value;
use std::alloc::AllocError;

/// An operation: read a key; put a value at a key; delete a key; read all pairs between two keys, both in; add to the number at a key, modulo 2^64.
#[derive(PartialEq, Eq, Drop)]
pub enum Op {
    Get(u64),
    Put(u64, Value),
    Del(u64),
    Scan(u64, u64),
    Add(u64, u64),
}

impl Op {
    /// The same operation once more. Takes no memory.
    pub fn copy(&self) -> Op
        ensures { result ≡ self.now }
    {
        match self {
            Op::Get(key) => Op::Get(*key),
            Op::Put(key, value) => Op::Put(*key, value.copy()),
            Op::Del(key) => Op::Del(*key),
            Op::Scan(low, high) => Op::Scan(*low, *high),
            Op::Add(key, by) => Op::Add(*key, *by),
        }
    }
}

impl Clone for Op {
    ghost is_clone = { λ a b. b ≡ a };

    ghost is_infallible = { λ _. ⊤ };

    fn clone(&self) -> Result<Op, AllocError> {
        Ok(self.copy())
    }
}

/// The answer of an operation: the value before, or none; of a scan the pairs, by rising keys; of an addition whether there was a number.
#[derive(Clone, Drop)]
pub enum Answer {
    Value(Option<Value>),
    Pairs(Pairs),
    Added(bool),
}
