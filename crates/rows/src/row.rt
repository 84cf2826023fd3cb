// What a row says.

use command_line::Status;
use disk_memory::Choice;

/// What the two sides of a shard hold when they are put into their places.
#[derive(Clone, Copy)]
pub enum Given {
    /// The first side; the second one is empty.
    Bytes(&'static [u8]),
    Both(&'static [u8], &'static [u8]),
    /// What a crash leaves of what was there.
    Image(Choice),
}

/// A run of the program. Each shard is as the row before left it, but for those that are given.
pub struct Row {
    /// What it shows; told where it isn't so.
    pub shows: &'static str,
    pub disks: &'static [(u32, Given)],
    /// The calls that fail: of the first side of each shard that is given, of the source, and of the sink.
    pub failing: [&'static [u64]; 3],
    pub words: &'static [&'static str],
    pub script: &'static [u8],
    pub status: Status,
    pub text: &'static [u8],
    /// The digits of the live sessions whose lines may come between each other's.
    pub meeting: &'static [u8],
    /// How long the first sides of the first shards are then.
    pub lengths: &'static [usize],
    /// What the first side of the first shard holds then; not looked at where there is none.
    pub bytes: &'static [u8],
}

/// All is given by a row that begins with this one.
pub const ROW: Row = Row {
    shows: "",
    disks: &[],
    failing: [&[], &[], &[]],
    words: &[],
    script: b"",
    status: Status::Fine,
    text: b"",
    meeting: b"",
    lengths: &[],
    bytes: b"",
};
