//! What a store answers.
ghost use Rattle.std.specs.Prelude.{◌≡◌};

use clv_base::modes::{Anchor, Found};
use clv_base::values::Value;
use std::marker::Model;

/// Keys with what stands there, which contracts see as a list.
#[derive(Drop)]
pub struct FoundList {
    items: Vec<(u64, Found)>,
}

impl Model for FoundList {
    ghost use Rattle.std.specs.Prelude.{ℕ, List};
    ghost use Rattle.clv_base.specs.declared.modes.Found.{Found as OneFound};

    ghost Value = { List (ℕ × OneFound) };

    ghost view = { λ l. l.items.items };
}

impl FoundList {
    /// The list of the vector's rows, in its order. Takes no memory.
    pub fn new(items: Vec<(u64, Found)>) -> Self
        ensures { result ≡ items.items }
    {
        FoundList { items }
    }

    /// The rows, in order.
    pub fn as_slice(&self) -> &[(u64, Found)]
        ensures { result.now ≡ self.now }
    {
        self.items.as_slice()
    }
}

/// The answer of a call.
#[derive(Drop)]
pub enum StoreAnswer {
    /// What stands at the key, or stood there before it was hidden or purged.
    There(Found),
    /// The live value before.
    Before(Option<Value>),
    /// The greatest record below.
    Below(Anchor),
    /// The records in bounds, by rising keys.
    Rows(FoundList),
}
