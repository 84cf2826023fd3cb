// The file's record that is spelled at the front of bytes.

ghost use Rattle.std.specs.Prelude.{◌≡◌, ◌∷◌, ◌-◌, ◌≤◌, ℕ, List, drop, IfOk, MatchResult};
ghost use Rattle.clv_base.specs.declared.shard_log.FileRecord.{FileRecord as Record};
ghost use Rattle.log_records.specs.Reading.{Gives};
ghost use Rattle.log_records.specs.FileSpelling.{file_record_size, BeginsInFile};
ghost use Rattle.log_records.specs.FileReading.{base_at, check_at, file_record_at, keep_at, part_fields_at, plain_at};

use crate::error::DecodeError;
use crate::file_bounds::has_spelling_in_file;
use crate::numbers::{u32_at, u64_at, value_at};
use crate::reading::record_of;
use clv_base::shard_log::FileRecord;
use std::alloc::Global;

#[tactic(auto, unfolding(crate::specs::FileReading::check_at))]
fn begin_of(bytes: &[u8]) -> Result<(FileRecord, &[u8]), DecodeError>
    ensures { Gives (λ x. (x.0, x.1.now)) result (check_at bytes.now) }
{
    let (run, rest) = u32_at(bytes)?;
    let (epoch, rest) = u64_at(rest)?;
    let (upto, rest) = u64_at(rest)?;
    Ok((FileRecord::Begin { run, epoch, upto }, rest))
}

#[tactic(auto, unfolding(crate::specs::FileReading::base_at))]
fn base_of(alloc: Global, bytes: &[u8]) -> Result<(FileRecord, &[u8]), DecodeError>
    ensures { Gives (λ x. (x.0, x.1.now)) result (base_at bytes.now) }
{
    let (key, rest) = u64_at(bytes)?;
    let (value, rest) = value_at(alloc, rest)?;
    match value {
        Some(value) => Ok((FileRecord::Base { key, value }, rest)),
        None => Err(DecodeError::Bad),
    }
}

#[tactic(auto, unfolding(crate::specs::FileReading::keep_at))]
fn keep_of(alloc: Global, bytes: &[u8]) -> Result<(FileRecord, &[u8]), DecodeError>
    ensures { Gives (λ x. (x.0, x.1.now)) result (keep_at bytes.now) }
{
    let (lsn, rest) = u64_at(bytes)?;
    let (record, rest) = record_of(alloc, rest)?;
    Ok((FileRecord::Keep { lsn, record }, rest))
}

#[tactic(auto, unfolding(crate::specs::FileReading::plain_at))]
fn plain_of(alloc: Global, bytes: &[u8]) -> Result<(FileRecord, &[u8]), DecodeError>
    ensures { Gives (λ x. (x.0, x.1.now)) result (plain_at bytes.now) }
{
    let (record, rest) = record_of(alloc, bytes)?;
    Ok((FileRecord::Plain(record), rest))
}

// By the kind, less 10.
fn part_of(alloc: Global, kind: u8, bytes: &[u8]) -> Result<(FileRecord, &[u8]), DecodeError>
    ensures { Gives (λ x. (x.0, x.1.now)) result (part_fields_at kind bytes.now) }
{
    match kind {
        0 => begin_of(bytes),
        1 => base_of(alloc, bytes),
        2 => keep_of(alloc, bytes),
        3 => Ok((FileRecord::Checked, bytes)),
        _ => Err(DecodeError::Bad),
    }
}

#[tactic(auto, unfolding(crate::specs::FileReading::file_record_at))]
fn file_record_of(alloc: Global, bytes: &[u8]) -> Result<(FileRecord, &[u8]), DecodeError>
    ensures { Gives (λ x. (x.0, x.1.now)) result (file_record_at bytes.now) }
{
    let [kind, fields @ ..] = bytes else {
        return Err(DecodeError::Bad);
    };
    if *kind < 10 {
        return plain_of(alloc, bytes);
    }
    let (record, rest) = part_of(alloc, *kind - 10, fields)?;
    if !has_spelling_in_file(&record) {
        return Err(DecodeError::Bad);
    }
    Ok((record, rest))
}

/// The file's record whose spelling stands at the front of the bytes, and the length of that spelling. `Bad` comes exactly where none stands there,
/// `Memory` for want of memory alone. Takes time in proportion to the spelling.
pub fn decode_in_file(alloc: Global, bytes: &[u8]) -> Result<(FileRecord, usize), DecodeError>
    ensures found { IfOk result (λ x. BeginsInFile x.0 (drop x.1 bytes.now) bytes.now) }
    ensures size { IfOk result (λ x. x.1 ≡ file_record_size x.0) }
    ensures bad { result ≡ Err DecodeError.Bad → (r : Record) (behind : List ℕ) → ¬ (BeginsInFile r behind bytes.now) }

    // What is spelled at the front is found, unless memory runs out.
    ensures only { (r : Record) (behind : List ℕ) → BeginsInFile r behind bytes.now
        → MatchResult result (λ x. x.0 ≡ r) (λ e. e ≡ DecodeError.Memory) }

    // The same by reading from left to right.
    ensures reads { Gives (λ x. (x.0, drop x.1 bytes.now)) result (file_record_at bytes.now) }
{
    let (record, rest) = file_record_of(alloc, bytes)?;
    Ok((record, bytes.len() - rest.len()))
}
