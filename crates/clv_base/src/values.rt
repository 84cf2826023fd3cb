// What a key may hold: a number, or a short text of bytes.

ghost use Rattle.std.specs.Prelude.{◌≡◌, ◌==◌, ◌≤◌, true, ⊤, length};
ghost use Rattle.clv_base.specs.declared.values.Value.{Value as ValueType};
ghost use Rattle.clv_base.specs.Values.{same_list, same_value, same_optional_value, fits_value};

use crate::texts::ByteText;
use std::alloc::AllocError;

fn number_fits(number: u64)
    ensures { fits_value (ValueType.Num number) ≡ true }
{}

fn bytes_fit(bytes: &[u8])
    requires { length bytes.now ≤ 200 }
    ensures { fits_value (ValueType.Bytes bytes.now) ≡ true }
{}

/// A value of the store.
#[derive(PartialEq, Eq, Drop)]
pub enum Value {
    /// A number.
    Num(u64),
    /// A text of bytes.
    Bytes(ByteText),
}

impl Value {
    /// The same value once more. Takes no memory.
    pub fn copy(&self) -> Value
        ensures { result ≡ self.now }
    {
        match self {
            Value::Num(number) => Value::Num(*number),
            Value::Bytes(text) => Value::Bytes(text.copy()),
        }
    }

    /// A law: a number has 64 bits, and a text at most 200 bytes.
    pub fn fits(&self)
        ensures { fits_value self.now ≡ true }
    {
        match self {
            Value::Num(number) => number_fits(*number),
            Value::Bytes(text) => bytes_fit(text.as_slice()),
        }
    }

    /// Whether this is the other value.
    pub fn is(&self, other: &Value) -> bool
        ensures { result ≡ same_value self.now other.now }
    {
        match (self, other) {
            (Value::Num(a), Value::Num(b)) => a == b,
            (Value::Bytes(a), Value::Bytes(b)) => are_same_bytes(a.as_slice(), b.as_slice()),
            _ => false,
        }
    }
}

impl Clone for Value {
    ghost is_clone = { λ a b. b ≡ a };

    ghost is_infallible = { λ _. ⊤ };

    fn clone(&self) -> Result<Value, AllocError> {
        Ok(self.copy())
    }
}

/// Whether these are the same bytes.
fn are_same_bytes(a: &[u8], b: &[u8]) -> bool
    ensures { result ≡ same_list (◌==◌) a.now b.now }
{
    a == b
}

/// What may be a value, once more. Takes no memory.
pub fn copy_of(value: &Option<Value>) -> Option<Value>
    ensures { result ≡ value.now }
{
    match value {
        Some(value) => Some(value.copy()),
        None => None,
    }
}

/// Whether these are the same value, or both none.
pub fn are_same(a: &Option<Value>, b: &Option<Value>) -> bool
    ensures { result ≡ same_optional_value a.now b.now }
{
    match (a, b) {
        (Some(a), Some(b)) => a.is(b),
        (None, None) => true,
        _ => false,
    }
}
