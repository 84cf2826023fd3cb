// Runs of `make`, and words that are no command.

use crate::disks::{EMPTY, FIRST};
use crate::row::{Given, ROW, Row};
use command_line::Status;

const NEW: Given = Given::Bytes(b"");

const ROWS: &[Row] = &[
    Row {
        shows: "one shard",
        disks: &[(0, NEW)],
        words: &["make"],
        bytes: EMPTY,
        ..ROW
    },
    Row {
        shows: "what is there stays",
        words: &["make"],
        status: Status::Exists { shard: 0, len: 29 },
        bytes: EMPTY,
        ..ROW
    },
    Row {
        shows: "two shards",
        disks: &[(0, NEW), (1, NEW)],
        words: &["make", "10"],
        lengths: &[37, 37],
        bytes: FIRST,
        ..ROW
    },
    Row {
        shows: "none is made where one is there",
        disks: &[(0, NEW), (1, Given::Bytes(b"ab"))],
        words: &["make", "10"],
        status: Status::Exists { shard: 1, len: 2 },
        lengths: &[0, 2],
        ..ROW
    },
    Row {
        shows: "none is made where the other side is there",
        disks: &[(0, Given::Both(b"", b"abc")), (1, NEW)],
        words: &["make", "10"],
        status: Status::Exists { shard: 0, len: 3 },
        lengths: &[0, 0],
        ..ROW
    },
    Row {
        shows: "sixteen shards",
        disks: &[
            (0, NEW),
            (1, NEW),
            (2, NEW),
            (3, NEW),
            (4, NEW),
            (5, NEW),
            (6, NEW),
            (7, NEW),
            (8, NEW),
            (9, NEW),
            (10, NEW),
            (11, NEW),
            (12, NEW),
            (13, NEW),
            (14, NEW),
            (15, NEW),
        ],
        words: &[
            "make", "1", "2", "3", "4", "5", "6", "7", "8", "9", "10", "11", "12", "13", "14", "15",
        ],
        lengths: &[
            149, 149, 149, 149, 149, 149, 149, 149, 149, 149, 149, 149, 149, 149, 149, 149,
        ],
        ..ROW
    },
    Row {
        shows: "sixteen splits",
        disks: &[(0, NEW)],
        words: &[
            "make", "1", "2", "3", "4", "5", "6", "7", "8", "9", "10", "11", "12", "13", "14",
            "15", "16",
        ],
        status: Status::Usage,
        lengths: &[0],
        ..ROW
    },
    Row {
        shows: "splits that fall",
        words: &["make", "20", "10"],
        status: Status::Usage,
        lengths: &[0],
        ..ROW
    },
    Row {
        shows: "no word",
        status: Status::Usage,
        lengths: &[0],
        ..ROW
    },
    Row {
        shows: "no command",
        words: &["reload"],
        status: Status::Usage,
        ..ROW
    },
    Row {
        shows: "more tries than may be",
        words: &["run", "--tries", "1001"],
        status: Status::Usage,
        ..ROW
    },
    Row {
        shows: "a workload that isn't said whole",
        words: &["load", "--seed", "0", "--sessions", "1", "--accounts", "2"],
        status: Status::Usage,
        ..ROW
    },
];

pub fn rows() -> &'static [Row] {
    ROWS
}
