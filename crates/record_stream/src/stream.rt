// Records that come in pieces of bytes.

ghost use Rattle.std.specs.Prelude.{◌≡◌, ◌≤◌, ◌++◌, ◌∷◌, ◌-◌, ℕ, List, [], length, take, drop, Err, IfOk};
ghost use Rattle.record_stream.specs.Streams.{Begins, Came, Comes, StandsFirst, Unfinished};
ghost use Rattle.record_stream.specs.declared.error.StreamError.TheVariants.{Bad};

use crate::error::{Memory, StreamError};
use crate::records::is_unfinished;
use clv_base::logs::LogRecord;
use log_records::{DecodeError, decode};
use std::alloc::Global;
use std::marker::Model;

// The length of the longest spelling, a PREPARE's with 1,024 predecessors.
const LONGEST: usize = 25 + 16 * 1024;

// The record at the front and the length of its spelling; none where it is unfinished.
fn first(alloc: Global, bytes: &[u8]) -> Result<Option<(LogRecord, usize)>, StreamError>
    ensures stands { IfOk result (λ x. StandsFirst bytes.now x) }
    ensures bad { result ≡ Err Bad → ¬ (Begins bytes.now) }
{
    match decode(alloc, bytes) {
        Ok(found) => Ok(Some(found)),
        Err(DecodeError::Memory) => Err(StreamError::Memory),
        Err(DecodeError::Bad) => {
            if is_unfinished(bytes) {
                Ok(None)
            } else {
                Err(StreamError::Bad)
            }
        }
    }
}

// What stands behind so many bytes.
fn behind(bytes: &[u8], size: usize) -> &[u8]
    requires { size ≤ length bytes.now }
    ensures { result.now ≡ drop size bytes.now }
{
    &bytes[size..]
}

// The records that stand whole in the bytes go behind the others. Gives the bytes that are left.
fn put_all<'a>(
    alloc: Global,
    records: &mut Vec<LogRecord>,
    bytes: &'a [u8],
) -> Result<&'a [u8], StreamError>
    ensures come { IfOk result (λ rest. Comes records.old.items records.new.items rest.now bytes.now) }
    ensures bad { result ≡ Err Bad → ¬ (Begins bytes.now) }
{
    let mut rest = bytes;
    while let Some((record, size)) = first(alloc, rest)? {
        records.push(record)?;
        rest = behind(rest, size);
    }
    Ok(rest)
}

// The bytes that wait, and so many of the piece that with these a record is whole.
fn front_of(alloc: Global, tail: &[u8], piece: &[u8]) -> Result<Vec<u8>, Memory>
    ensures { IfOk result (λ front. front.items ≡ tail.now ++ take (16409 - length tail.now) piece.now) }
{
    let count = piece.len().min(LONGEST.saturating_sub(tail.len()));
    let mut front = tail.to_vec(alloc)?;
    front.extend_from_slice(&piece[..count])?;
    Ok(front)
}

/// The bytes of a record that isn't whole yet, as the list that they are: none, at first.
#[derive(Drop)]
pub struct RecordStream {
    tail: Vec<u8>,
}

impl Model for RecordStream {
    ghost Value = { List ℕ };

    ghost view = { λ s. s.tail.items };

    ghost invariant = { λ s. Unfinished s.tail.items };
}

/// The records of a piece that came whole, and the stream behind them.
#[derive(Drop)]
pub struct Read {
    pub records: Vec<LogRecord>,
    pub stream: RecordStream,
}

impl RecordStream {
    /// The stream before its first byte. Takes no memory.
    pub fn new(alloc: Global) -> Self
        ensures { result ≡ [] }
    {
        RecordStream {
            tail: Vec::new(alloc),
        }
    }

    /// The bytes that wait, which begin the spelling of a record and are not all of it.
    pub fn waiting(&self) -> &[u8]
        ensures is { result.now ≡ self.now }
        ensures unfinished { Unfinished self.now }
    {
        self.tail.as_slice()
    }

    /// The records that come whole by a piece, and the stream behind it. `Bad` comes where the bytes so far, with this piece, are not the
    /// beginning of records' spellings, `Memory` for want of memory alone. This stream stays as it is, so that a piece may still be refused.
    /// Beside the records it takes room for two records' bytes at most, and time in proportion to the piece, and to one record's bytes.
    pub fn read(&self, alloc: Global, piece: &[u8]) -> Result<Read, StreamError>
        ensures came { IfOk result (λ read. Came read.records.items read.stream (self.now ++ piece.now)) }
        ensures bad { result ≡ Err Bad → ¬ (Begins (self.now ++ piece.now)) }
    {
        read_behind(alloc, self.tail.as_slice(), piece)
    }
}

// The records of the rest of a piece go behind the first one.
fn read_on(alloc: Global, whole: LogRecord, rest: &[u8]) -> Result<Read, StreamError>
    ensures come { IfOk result (λ read. Comes (whole ∷ []) read.records.items read.stream rest.now) }
    ensures bad { result ≡ Err Bad → ¬ (Begins rest.now) }
{
    let mut records = Vec::new(alloc);
    records.push(whole)?;
    let tail = put_all(alloc, &mut records, rest)?.to_vec(alloc)?;
    Ok(Read {
        records,
        stream: RecordStream { tail },
    })
}

// The records that come whole by a piece behind the bytes of an unfinished one.
fn read_behind(alloc: Global, tail: &[u8], piece: &[u8]) -> Result<Read, StreamError>
    requires { Unfinished tail.now }
    ensures came { IfOk result (λ read. Came read.records.items read.stream (tail.now ++ piece.now)) }
    ensures bad { result ≡ Err Bad → ¬ (Begins (tail.now ++ piece.now)) }
{
    let front = front_of(alloc, tail, piece)?;
    match first(alloc, front.as_slice())? {
        None => Ok(Read {
            records: Vec::new(alloc),
            stream: RecordStream { tail: front },
        }),
        Some((record, size)) => {
            let rest = behind(piece, size - tail.len());
            read_on(alloc, record, rest)
        }
    }
}
