// Numbers and names of transactions as bytes.

ghost use Rattle.std.specs.Prelude.{◌≡◌, ◌≤◌, ◌+◌, ◌++◌, [], ◌∷◌, Some, length, vec_len, vec_capacity};
ghost use Rattle.clv_base.specs.declared.values.Value.{Value as ValueType};
ghost use Rattle.clv_base.specs.Logs.{optional_size, value_size};
ghost use Rattle.log_records.specs.Reading.{Gives, number_at, optional_at, text_at, transaction_at, undo_next_at};
ghost use Rattle.log_records.specs.Spelling.{number, optional, transaction, undo_next};

use crate::error::DecodeError;
use byteorder::{ByteOrder, LittleEndian};
use clv_base::names::TxId;
use clv_base::texts::ByteText;
use clv_base::values::Value;
use std::alloc::Global;

// The LSN that stands for none.
const NONE: u64 = u64::MAX;

#[tactic(auto, unfolding(crate::specs::Reading::number_at))]
pub fn u32_at(bytes: &[u8]) -> Result<(u32, &[u8]), DecodeError>
    ensures { Gives (λ x. (x.0, x.1.now)) result (number_at 4 bytes.now) }
{
    if bytes.len() < 4 {
        return Err(DecodeError::Bad);
    }
    Ok((LittleEndian::read_u32(bytes), &bytes[4..]))
}

#[tactic(auto, unfolding(crate::specs::Reading::number_at))]
pub fn u64_at(bytes: &[u8]) -> Result<(u64, &[u8]), DecodeError>
    ensures { Gives (λ x. (x.0, x.1.now)) result (number_at 8 bytes.now) }
{
    if bytes.len() < 8 {
        return Err(DecodeError::Bad);
    }
    Ok((LittleEndian::read_u64(bytes), &bytes[8..]))
}

#[tactic(auto, unfolding(crate::specs::Reading::transaction_at))]
pub fn tx_at(bytes: &[u8]) -> Result<(TxId, &[u8]), DecodeError>
    ensures { Gives (λ x. (x.0, x.1.now)) result (transaction_at bytes.now) }
{
    let (run, rest) = u32_at(bytes)?;
    let (session, rest) = u32_at(rest)?;
    let (serial, rest) = u64_at(rest)?;
    let tx = TxId {
        run,
        session,
        serial,
    };
    Ok((tx, rest))
}

/// A text of at most 200 bytes, behind their count.
#[tactic(auto, unfolding(crate::specs::Reading::text_at))]
fn text_at(alloc: Global, bytes: &[u8]) -> Result<(ByteText, &[u8]), DecodeError>
    ensures { Gives (λ x. (x.0, x.1.now)) result (text_at bytes.now) }
{
    let [count, rest @ ..] = bytes else {
        return Err(DecodeError::Bad);
    };
    let count = *count as usize;
    if count > 200 || count > rest.len() {
        return Err(DecodeError::Bad);
    }
    let text = ByteText::new(alloc, &rest[..count])?;
    Ok((text, &rest[count..]))
}

#[tactic(auto, unfolding(crate::specs::Reading::optional_at))]
pub fn value_at(alloc: Global, bytes: &[u8]) -> Result<(Option<Value>, &[u8]), DecodeError>
    ensures { Gives (λ x. (x.0, x.1.now)) result (optional_at bytes.now) }
{
    match bytes {
        [] => Err(DecodeError::Bad),
        [0, rest @ ..] => Ok((None, rest)),
        [1, rest @ ..] => {
            let (number, rest) = u64_at(rest)?;
            Ok((Some(Value::Num(number)), rest))
        }
        [2, rest @ ..] => {
            let (text, rest) = text_at(alloc, rest)?;
            Ok((Some(Value::Bytes(text)), rest))
        }
        [_, ..] => Err(DecodeError::Bad),
    }
}

#[tactic(auto, unfolding(crate::specs::Reading::undo_next_at))]
pub fn lsn_at(bytes: &[u8]) -> Result<(Option<u64>, &[u8]), DecodeError>
    ensures { Gives (λ x. (x.0, x.1.now)) result (undo_next_at bytes.now) }
{
    let (lsn, rest) = u64_at(bytes)?;
    if lsn == NONE {
        return Ok((None, rest));
    }
    Ok((Some(lsn), rest))
}

// Appends bytes for which room was reserved.
fn put(out: &mut Vec<u8>, bytes: &[u8])
    requires { vec_len out.old + length bytes.now ≤ vec_capacity out.old }
    ensures items { out.new.items ≡ out.old.items ++ bytes.now }
    ensures len { vec_len out.new ≡ vec_len out.old + length bytes.now }
    ensures room { vec_capacity out.old ≤ vec_capacity out.new }
{
    out.extend_from_slice(bytes).unwrap();
}

pub fn put_byte(out: &mut Vec<u8>, byte: u8)
    requires { vec_len out.old + 1 ≤ vec_capacity out.old }
    ensures items { out.new.items ≡ out.old.items ++ byte ∷ [] }
    ensures len { vec_len out.new ≡ vec_len out.old + 1 }
    ensures room { vec_capacity out.old ≤ vec_capacity out.new }
{
    out.push_reserved(byte);
}

#[tactic(auto, unfolding(crate::specs::Spelling::number))]
pub fn put_u32(out: &mut Vec<u8>, n: u32)
    requires { vec_len out.old + 4 ≤ vec_capacity out.old }
    ensures items { out.new.items ≡ out.old.items ++ number 4 n }
    ensures len { vec_len out.new ≡ vec_len out.old + 4 }
    ensures room { vec_capacity out.old ≤ vec_capacity out.new }
{
    let mut bytes = [0; 4];
    LittleEndian::write_u32(&mut bytes, n);
    put(out, &bytes);
}

#[tactic(auto, unfolding(crate::specs::Spelling::number))]
pub fn put_u64(out: &mut Vec<u8>, n: u64)
    requires { vec_len out.old + 8 ≤ vec_capacity out.old }
    ensures items { out.new.items ≡ out.old.items ++ number 8 n }
    ensures len { vec_len out.new ≡ vec_len out.old + 8 }
    ensures room { vec_capacity out.old ≤ vec_capacity out.new }
{
    let mut bytes = [0; 8];
    LittleEndian::write_u64(&mut bytes, n);
    put(out, &bytes);
}

#[tactic(auto, unfolding(crate::specs::Spelling::transaction))]
pub fn put_tx(out: &mut Vec<u8>, tx: TxId)
    requires { vec_len out.old + 16 ≤ vec_capacity out.old }
    ensures items { out.new.items ≡ out.old.items ++ transaction tx }
    ensures len { vec_len out.new ≡ vec_len out.old + 16 }
    ensures room { vec_capacity out.old ≤ vec_capacity out.new }
{
    put_u32(out, tx.run);
    put_u32(out, tx.session);
    put_u64(out, tx.serial);
}

#[tactic(auto, unfolding(crate::specs::Spelling::optional))]
fn put_text(out: &mut Vec<u8>, text: &ByteText)
    requires { vec_len out.old + (2 + length text.now) ≤ vec_capacity out.old }
    ensures items { out.new.items ≡ out.old.items ++ optional (Some (ValueType.Bytes text.now)) }
    ensures len { vec_len out.new ≡ vec_len out.old + (2 + length text.now) }
    ensures room { vec_capacity out.old ≤ vec_capacity out.new }
{
    let bytes = text.as_slice();
    put_byte(out, 2);
    put_byte(out, bytes.len() as u8);
    put(out, bytes);
}

/// As a value that may be none is spelled.
#[tactic(auto, unfolding(crate::specs::Spelling::optional))]
pub fn put_some(out: &mut Vec<u8>, value: &Value)
    requires { vec_len out.old + value_size value.now ≤ vec_capacity out.old }
    ensures items { out.new.items ≡ out.old.items ++ optional (Some value.now) }
    ensures len { vec_len out.new ≡ vec_len out.old + value_size value.now }
    ensures room { vec_capacity out.old ≤ vec_capacity out.new }
{
    match value {
        Value::Num(number) => {
            put_byte(out, 1);
            put_u64(out, *number);
        }
        Value::Bytes(text) => put_text(out, text),
    }
}

#[tactic(auto, unfolding(crate::specs::Spelling::optional))]
pub fn put_value(out: &mut Vec<u8>, value: &Option<Value>)
    requires { vec_len out.old + optional_size value.now ≤ vec_capacity out.old }
    ensures items { out.new.items ≡ out.old.items ++ optional value.now }
    ensures len { vec_len out.new ≡ vec_len out.old + optional_size value.now }
    ensures room { vec_capacity out.old ≤ vec_capacity out.new }
{
    match value {
        None => put_byte(out, 0),
        Some(value) => put_some(out, value),
    }
}

#[tactic(auto, unfolding(crate::specs::Spelling::undo_next))]
pub fn put_lsn(out: &mut Vec<u8>, lsn: Option<u64>)
    requires { vec_len out.old + 8 ≤ vec_capacity out.old }
    ensures items { out.new.items ≡ out.old.items ++ undo_next lsn }
    ensures len { vec_len out.new ≡ vec_len out.old + 8 }
    ensures room { vec_capacity out.old ≤ vec_capacity out.new }
{
    put_u64(out, lsn.unwrap_or(NONE));
}
