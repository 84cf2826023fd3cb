// What a disk in memory notes.

/// A call that was made, with its place and how many bytes it read or wrote.
#[derive(Clone, Copy, PartialEq, Eq)]
pub enum Noted {
    Len,
    Read { at: usize, count: usize },
    Write { at: usize, count: usize },
    Cut { len: usize },
    Sync,
    FailedWrite { at: usize, count: usize },
    FailedCut { len: usize },
    FailedSync,
}

/// What a crash leaves of bytes that aren't synced: what they were at the last sync (0 past its end), what a read
/// gives, or one byte.
#[derive(Clone, Copy, PartialEq, Eq)]
pub enum Choice {
    Before,
    Written,
    Fill(u8),
}
