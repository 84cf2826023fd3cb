// Values and operations at rest.
ghost use Rattle.std.specs.Prelude.{◌≡◌, ⊤, Some};
ghost use Rattle.clv_base.specs.Needs.{found_by};

use crate::modes::Found;
use crate::ops::Op;
use crate::texts::ByteText;
use crate::values::Value;
use std::alloc::AllocError;
use std::marker::Model;

// An `Option` of a `Value` would have two words that tell of what kind it is.
#[derive(Drop)]
enum Held {
    Nothing,
    Num(u64),
    Bytes(ByteText),
}

/// A value, or none, in the room of a number that may be none.
#[derive(Drop)]
pub struct Kept {
    held: Held,
}

impl Model for Kept {
    ghost use Rattle.std.specs.Prelude.{Option};
    ghost use Rattle.clv_base.specs.declared.values.Value.{Value as ValueType};

    ghost Value = { Option ValueType };

    ghost use Rattle.clv_base.specs.Kept.{value_of};

    ghost view = { λ k. value_of k.held };
}

impl Kept {
    /// What keeps it. Takes no memory.
    pub fn new(value: Option<Value>) -> Kept
        ensures { result ≡ value }
    {
        let held = match value {
            None => Held::Nothing,
            Some(Value::Num(number)) => Held::Num(number),
            Some(Value::Bytes(text)) => Held::Bytes(text),
        };
        Kept { held }
    }

    /// The value, once more. Takes no memory.
    pub fn value(&self) -> Option<Value>
        ensures { result ≡ self.now }
    {
        match &self.held {
            Held::Nothing => None,
            Held::Num(number) => Some(Value::Num(*number)),
            Held::Bytes(text) => Some(Value::Bytes(text.copy())),
        }
    }

    /// What a record with it is.
    pub fn found(&self) -> Found
        ensures { result ≡ found_by (Some self.now) }
    {
        match self.value() {
            Some(value) => Found::Live(value),
            None => Found::Ghost,
        }
    }
}

impl Clone for Kept {
    ghost is_clone = { λ a b. b ≡ a };

    ghost is_infallible = { λ _. ⊤ };

    fn clone(&self) -> Result<Kept, AllocError> {
        Ok(Kept::new(self.value()))
    }
}

// The kind of what a Put puts is told by the word that tells the operation.
#[derive(Drop)]
enum HeldOp {
    Get(u64),
    PutNum(u64, u64),
    PutBytes(u64, ByteText),
    Del(u64),
    Scan(u64, u64),
    Add(u64, u64),
}

/// An operation, in the room of two numbers and its kind.
#[derive(Drop)]
pub struct KeptOp {
    held: HeldOp,
}

impl Model for KeptOp {
    ghost use Rattle.clv_base.specs.declared.ops.Op.{Op as OpType};

    ghost Value = { OpType };

    ghost use Rattle.clv_base.specs.Kept.{op_of};

    ghost view = { λ k. op_of k.held };
}

impl KeptOp {
    /// What keeps it. Takes no memory.
    pub fn new(op: Op) -> KeptOp
        ensures { result ≡ op }
    {
        let held = match op {
            Op::Get(key) => HeldOp::Get(key),
            Op::Put(key, Value::Num(number)) => HeldOp::PutNum(key, number),
            Op::Put(key, Value::Bytes(text)) => HeldOp::PutBytes(key, text),
            Op::Del(key) => HeldOp::Del(key),
            Op::Scan(low, high) => HeldOp::Scan(low, high),
            Op::Add(key, by) => HeldOp::Add(key, by),
        };
        KeptOp { held }
    }

    /// The operation, once more. Takes no memory.
    pub fn op(&self) -> Op
        ensures { result ≡ self.now }
    {
        match &self.held {
            HeldOp::Get(key) => Op::Get(*key),
            HeldOp::PutNum(key, number) => Op::Put(*key, Value::Num(*number)),
            HeldOp::PutBytes(key, text) => Op::Put(*key, Value::Bytes(text.copy())),
            HeldOp::Del(key) => Op::Del(*key),
            HeldOp::Scan(low, high) => Op::Scan(*low, *high),
            HeldOp::Add(key, by) => Op::Add(*key, *by),
        }
    }
}

const _: () = prove!(size_of::<Kept>() == 16);

const _: () = prove!(size_of::<KeptOp>() == 24);
