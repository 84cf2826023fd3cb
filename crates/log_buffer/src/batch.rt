//! How many records fit a batch.
ghost use Rattle.std.specs.Prelude.{◌≡◌, ◌≤◌, length, take};
ghost use Rattle.log_buffer.specs.Buffers.{fitting_by, sizes};

use crate::measured::Measured;

/// How much a batch holds: so many records, which have together so many bytes.
#[derive(Clone, Copy, PartialEq, Eq)]
pub struct Extent {
    pub count: usize,
    pub bytes: usize,
}

/// How many of the records, from the first on, have together at most so many bytes, and how many bytes these have.
pub(crate) fn fitting<R: Measured>(records: &[R], limit: usize) -> Extent
    ensures fitting { result.count ≡ fitting_by R.size limit records.now }
    ensures few { result.count ≤ length records.now }
    ensures bytes { result.bytes ≡ sizes R.size (take result.count records.now) }
    ensures light { result.bytes ≤ limit }
{
    let mut left = limit;
    for (count, record) in records.iter().enumerate() {
        let size = record.size();
        if left < size {
            return Extent {
                count,
                bytes: limit - left,
            };
        }
        left -= size;
    }
    Extent {
        count: records.len(),
        bytes: limit - left,
    }
}
