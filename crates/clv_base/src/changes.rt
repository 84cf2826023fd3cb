// What a write does to the value of its key.

ghost use Rattle.std.specs.Prelude.{◌≡◌};
ghost use Rattle.clv_base.specs.Maps.{plus as with_added, minus as with_taken, is_number as is_number_value};

use crate::logs::LogRecord;
use crate::names::TxId;
use crate::values::{Value, copy_of};

/// What is done to the value of a key: it is set, where it was before; or a number is added to it, modulo 2^64.
#[derive(PartialEq, Eq, Drop)]
pub enum Change {
    /// The value before, and the value after.
    Sets(Option<Value>, Option<Value>),
    Adds(u64),
}

/// The value with a number added, where it is a number; else it stays.
pub fn plus(value: &Option<Value>, by: u64) -> Option<Value>
    ensures { result ≡ with_added by value.now }
{
    match value {
        None => None,
        Some(Value::Num(number)) => Some(Value::Num(number.wrapping_add(by))),
        Some(Value::Bytes(text)) => Some(Value::Bytes(text.copy())),
    }
}

/// The value with a number taken away, where it is a number; else it stays.
pub fn minus(value: &Option<Value>, by: u64) -> Option<Value>
    ensures { result ≡ with_taken by value.now }
{
    match value {
        None => None,
        Some(Value::Num(number)) => Some(Value::Num(number.wrapping_sub(by))),
        Some(Value::Bytes(text)) => Some(Value::Bytes(text.copy())),
    }
}

/// Whether it is a number.
pub fn is_number(value: &Option<Value>) -> bool
    ensures { result ≡ is_number_value value.now }
{
    match value {
        Some(Value::Num(_)) => true,
        Some(Value::Bytes(_)) => false,
        None => false,
    }
}

impl Change {
    ghost use Rattle.std.specs.Prelude.{◌≡◌};
    ghost use Rattle.clv_base.specs.Logs.{changed, unchanged, is_setting as sets};
    ghost use Rattle.clv_base.specs.OneShard.{update_of};
    ghost use Rattle.clv_base.specs.Undo.{compensation};

    /// The same change once more. Takes no memory.
    pub fn copy(&self) -> Change
        ensures { result ≡ self.now }
    {
        match self {
            Change::Sets(before, after) => Change::Sets(copy_of(before), copy_of(after)),
            Change::Adds(by) => Change::Adds(*by),
        }
    }

    /// Whether it sets the value.
    pub fn is_setting(&self) -> bool
        ensures { result ≡ sets self.now }
    {
        match self {
            Change::Sets(_, _) => true,
            Change::Adds(_) => false,
        }
    }

    /// The value after it, by that before it.
    pub fn after(&self, value: &Option<Value>) -> Option<Value>
        ensures { result ≡ changed self.now value.now }
    {
        match self {
            Change::Sets(_, after) => copy_of(after),
            Change::Adds(by) => plus(value, *by),
        }
    }

    /// The value before it, by that after it.
    pub fn before(&self, value: &Option<Value>) -> Option<Value>
        ensures { result ≡ unchanged self.now value.now }
    {
        match self {
            Change::Sets(before, _) => copy_of(before),
            Change::Adds(by) => minus(value, *by),
        }
    }

    /// The record of it: an UPDATE or an ADD.
    pub fn into_record(self, tx: TxId, key: u64) -> LogRecord
        ensures { result ≡ update_of tx key self }
    {
        match self {
            Change::Sets(before, after) => LogRecord::Update {
                tx,
                key,
                before,
                after,
            },
            Change::Adds(by) => LogRecord::Add { tx, key, by },
        }
    }

    /// The record that compensates it: a CLR or an UNADD.
    pub fn into_undo(self, tx: TxId, undo_next: Option<u64>, key: u64) -> LogRecord
        ensures { result ≡ compensation tx undo_next key self }
    {
        match self {
            Change::Sets(before, _) => LogRecord::Clr {
                tx,
                undo_next,
                key,
                after: before,
            },
            Change::Adds(by) => LogRecord::Unadd {
                tx,
                undo_next,
                key,
                by,
            },
        }
    }
}
