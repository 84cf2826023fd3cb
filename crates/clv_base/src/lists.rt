// Lists inside other types, which contracts see as lists.

ghost use Rattle.std.specs.Prelude.{◌≡◌, ℕ, List, length};
ghost use Rattle.clv_base.specs.declared.names.TxId.{TxId};
ghost use Rattle.clv_base.specs.declared.values.Value.{Value as ValueType};
ghost use Rattle.clv_base.specs.declared.causes.Vote.{Vote};
ghost use Rattle.clv_base.specs.Arrays.{present_from};

use crate::causes::Vote;
use crate::names::TxId;
use crate::values::Value;
use std::marker::Model;

/// Pairs of a key and its value.
#[derive(Clone, Drop)]
pub struct Pairs {
    items: Vec<(u64, Value)>,
}

impl Model for Pairs {
    ghost Value = { List (ℕ × ValueType) };

    ghost view = { λ p. p.items.items };
}

impl Pairs {
    /// The list of the vector's pairs, in its order. Takes no memory.
    pub fn new(items: Vec<(u64, Value)>) -> Self
        ensures { result ≡ items.items }
    {
        Pairs { items }
    }

    /// The vector of the list's pairs, given back. Takes no memory.
    pub fn into_vec(self) -> Vec<(u64, Value)>
        ensures { result.items ≡ self }
    {
        self.items
    }

    /// The pairs, in order.
    pub fn as_slice(&self) -> &[(u64, Value)]
        ensures { result.now ≡ self.now }
    {
        self.items.as_slice()
    }
}

/// Transactions, in rising order.
#[derive(Drop)]
pub struct TxList {
    items: Vec<TxId>,
}

impl Model for TxList {
    ghost Value = { List TxId };

    ghost view = { λ p. p.items.items };
}

impl TxList {
    /// The list of the vector's transactions, in its order. Takes no memory.
    pub fn new(items: Vec<TxId>) -> Self
        ensures { result ≡ items.items }
    {
        TxList { items }
    }

    /// The transactions, in order.
    pub fn as_slice(&self) -> &[TxId]
        ensures { result.now ≡ self.now }
    {
        self.items.as_slice()
    }

    /// The vector of the list's transactions, given back. Takes no memory.
    pub fn into_vec(self) -> Vec<TxId>
        ensures { result.items ≡ self }
    {
        self.items
    }
}

/// Touched shards, each with its epoch.
#[derive(Clone, Drop)]
pub struct Touched {
    items: Vec<(u32, u64)>,
}

impl Model for Touched {
    ghost Value = { List (ℕ × ℕ) };

    ghost view = { λ p. p.items.items };
}

impl Touched {
    /// The list of the vector's shards and epochs, in its order. Takes no memory.
    pub fn new(items: Vec<(u32, u64)>) -> Self
        ensures { result ≡ items.items }
    {
        Touched { items }
    }

    /// The shards with their epochs, in order.
    pub fn as_slice(&self) -> &[(u32, u64)]
        ensures { result.now ≡ self.now }
    {
        self.items.as_slice()
    }
}

/// Votes by shard, each at its place.
#[derive(Drop)]
pub struct Votes {
    pub(crate) given: [Option<Vote>; 16],
}

impl Model for Votes {
    ghost Value = { List (ℕ × Vote) };

    ghost view = { λ v. present_from 0 v.given };

    ghost invariant = { λ v. length v.given ≡ 16 };
}
