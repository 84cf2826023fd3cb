// Payloads, filled one after another.

ghost use Rattle.std.specs.Prelude.{◌≡◌, ◌++◌, ◌∷◌, [], map, IsTrue, IfOk, OnOk};
ghost use Rattle.std.specs.List.{AllByRecursion};
ghost use Rattle.clv_base.specs.FileRules.{file_record_has_spelling};
ghost use Rattle.log_records.specs.FileSpelling.{file_spelling};
ghost use Rattle.checkpoint_taking.specs.Cut.{FitsBatch, fits_behind as fits_behind_it, joined};

use crate::Memory;
use clv_base::shard_log::FileRecord;
use log_records::{encode_in_file, file_record_size, length_is_size_in_file};
use std::alloc::Global;
use std::marker::Model;
use std::mem;

// The most bytes of a payload.
const MOST: usize = 1_048_576;

// Whether the record's spelling fits behind these bytes.
fn fits_behind(last: &[u8], r: &FileRecord) -> bool
    requires { IsTrue (file_record_has_spelling r.now) }
    ensures { result ≡ fits_behind_it last.now (file_spelling r.now) }
{
    length_is_size_in_file();
    file_record_size(r) <= MOST.saturating_sub(last.len())
}

// A payload of one record.
fn payload_of(alloc: Global, r: &FileRecord) -> Result<Vec<u8>, Memory>
    requires { IsTrue (file_record_has_spelling r.now) }
    ensures { IfOk result (λ v. v.items ≡ file_spelling r.now) }
{
    let mut payload = Vec::new(alloc);
    encode_in_file(alloc, r, &mut payload)?;
    Ok(payload)
}

/// Payloads of a file, of which the last is being filled; each is of a record at least, and of 1,048,576 bytes at most.
#[derive(Drop)]
pub struct Batches {
    full: Vec<Vec<u8>>,
    last: Vec<u8>,
}

impl Model for Batches {
    ghost use Rattle.std.specs.Prelude.{ℕ, List, ◌++◌, ◌∷◌, [], map};
    ghost use Rattle.std.specs.List.{AllByRecursion};
    ghost use Rattle.checkpoint_taking.specs.Cut.{FitsBatch};

    ghost Value = { List (List ℕ) };

    ghost view = { λ b. map (λ v. v.items) b.full.items ++ b.last.items ∷ [] };

    ghost invariant = { λ b. AllByRecursion FitsBatch (map (λ v. v.items) b.full.items ++ b.last.items ∷ []) };
}

impl Batches {
    /// A payload with this record.
    pub fn begin(alloc: Global, r: &FileRecord) -> Result<Self, Memory>
        requires { IsTrue (file_record_has_spelling r.now) }
        ensures { IfOk result (λ b. b ≡ file_spelling r.now ∷ []) }
    {
        length_is_size_in_file();
        Ok(Batches {
            full: Vec::new(alloc),
            last: payload_of(alloc, r)?,
        })
    }

    /// Puts a record behind the others, in the last payload where it fits there, else in a new one.
    pub fn put(&mut self, alloc: Global, r: &FileRecord) -> Result<(), Memory>
        requires { IsTrue (file_record_has_spelling r.now) }
        ensures { OnOk result (self.new ≡ joined self.old (file_spelling r.now)) }
    {
        length_is_size_in_file();
        if fits_behind(self.last.as_slice(), r) {
            encode_in_file(alloc, r, &mut self.last)?;
            return Ok(());
        }
        let next = payload_of(alloc, r)?;
        self.full.push(mem::replace(&mut self.last, next))?;
        Ok(())
    }

    /// The payloads.
    pub fn into_payloads(self) -> Result<Vec<Vec<u8>>, Memory>
        ensures payloads { IfOk result (λ ps. map (λ v. v.items) ps.items ≡ self) }
        ensures fit { AllByRecursion FitsBatch self }
    {
        let Batches { full, last } = self;
        let mut payloads = full;
        payloads.push(last)?;
        Ok(payloads)
    }
}
