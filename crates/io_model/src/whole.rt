// All of a source, and all of a text.
ghost use Rattle.std.specs.Prelude.{◌≡◌, ◌≤◌, ◌<◌, ◌+◌, ◌++◌, ℕ, List, length, true, false, Err, IfOk, IfSome, OnOk, OnErr, IsErrOf};
ghost use Rattle.io_model.specs.Disk.{HasCause};
ghost use Rattle.io_model.specs.Streams.{Ends, TakesAll, CountsReading};
ghost use Rattle.io_model.specs.Steps.{Adds};
ghost use Rattle.io_model.specs.declared.whole.ReadError.TheVariants.{Failed as source_failed, Memory as no_memory};

use crate::{Failed, Sink, Source};
use std::alloc::{AllocError, Global};

/// Why a source wasn't read to its end.
#[derive(Clone, Copy, PartialEq, Eq)]
pub enum ReadError {
    /// The source failed.
    Failed,
    /// It has more bytes than the limit.
    TooLong,
    Memory,
}

impl From<AllocError> for ReadError {
    ghost from_gives = { λ _ e. e ≡ no_memory };

    fn from(_: AllocError) -> Self {
        ReadError::Memory
    }
}

impl From<Failed> for ReadError {
    ghost from_gives = { λ _ e. e ≡ source_failed };

    fn from(_: Failed) -> Self {
        ReadError::Failed
    }
}

// So many bytes. (A number written at `vec!` itself would be counted out in every goal after it.)
fn zeros(alloc: Global, count: usize) -> Result<Vec<u8>, AllocError>
    ensures { IfOk result (λ v. length v.items ≡ count) }
{
    vec![in alloc; 0u8; count]
}

// Adds the bytes of one read; false at the end.
fn add_piece<S: Source>(
    source: &mut S,
    piece: &mut [u8],
    all: &mut Vec<u8>,
) -> Result<bool, ReadError>
    requires { 0 < length piece.old }
    ensures adds { Adds (S.left source.old) (S.left source.new) all.old.items all.new.items result }
    ensures never { IsErrOf result ReadError.TooLong → ⊥ }
    ensures cause { CountsReading (S.faults source.old) (S.faults source.new) result }
{
    let count = source.read(piece)?;
    all.extend_from_slice(&piece[..count])?;
    Ok(count > 0)
}

const PIECE: usize = 65536;

/// Reads a source to its end.
pub fn read_all<S: Source>(
    alloc: Global,
    source: &mut S,
    limit: usize,
) -> Result<Vec<u8>, ReadError>
    // These are the bytes that were left, and none is left.
    ensures whole { IfOk result (λ all. Ends (S.left source.old) (S.left source.new) all.items) }
    ensures limit { IfOk result (λ all. length all.items ≤ limit) }
    // The bytes that were left are more than the limit.
    ensures too_long { IsErrOf result ReadError.TooLong → IfSome (S.left source.old) (λ left. limit < length left) }
    ensures cause { CountsReading (S.faults source.old) (S.faults source.new) result }
{
    let mut piece = zeros(alloc, PIECE)?;
    let mut all = Vec::new(alloc);
    while all.len() <= limit {
        match add_piece(source, piece.as_mut_slice(), &mut all) {
            Ok(true) => {}
            Ok(false) => return Ok(all),
            Err(error) => return Err(error),
        }
    }
    Err(ReadError::TooLong)
}

/// Writes all of these bytes. After `Failed` the sink took some of them, the first of them first.
pub fn write_all<K: Sink>(sink: &mut K, bytes: &[u8]) -> Result<(), Failed>
    ensures took { TakesAll (K.taken sink.old) (K.taken sink.new) bytes.now result }
    ensures cause { HasCause (K.faults sink.old) (K.faults sink.new) result }
{
    let mut at = 0;
    while at < bytes.len() {
        at += sink.write(&bytes[at..])?;
    }
    Ok(())
}
