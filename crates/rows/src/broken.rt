// Runs of `show` over logs whose bytes break the format.

use crate::disks::{FIRST, SECOND};
use crate::row::{Given, ROW, Row};
use cluster_opening::At;
use command_line::Status;

// The log of one put, cut within its second batch, before which the gate is open; the same with that gate closed; and cut before its last gate.
const CUT: &[u8] =
    b"CLVLOG02\x02\0\0\0\0\0\0\0\x01\0\0\0\x01\0\0\0\0\0\0\0\x01\x0d\0\0\0\x07\x01\0\0\0\0\0\0\0\0\0\0\0\x01\x38\0\0\0\x01\x01\0\0\0\x01\0\0\0\x01\0\0\0\0\0\0\0";

const CUT_CLOSED: &[u8] =
    b"CLVLOG02\x02\0\0\0\0\0\0\0\x01\0\0\0\x01\0\0\0\0\0\0\0\x01\x0d\0\0\0\x07\x01\0\0\0\0\0\0\0\0\0\0\0\0\x38\0\0\0\x01\x01\0\0\0\x01\0\0\0\x01\0\0\0\0\0\0\0";

const NO_GATE: &[u8] =
    b"CLVLOG02\x02\0\0\0\0\0\0\0\x01\0\0\0\x01\0\0\0\0\0\0\0\x01\x0d\0\0\0\x07\x01\0\0\0\0\0\0\0\0\0\0\0\x01\x38\0\0\0\x01\x01\0\0\0\x01\0\0\0\x01\0\0\0\0\0\0\0\x05\0\0\0\0\0\0\0\0\x01\x0a\0\0\0\0\0\0\0\x04\x01\0\0\0\x01\0\0\0\x01\0\0\0\0\0\0\0\0\0\0\0";

const ROWS: &[Row] = &[
    Row {
        shows: "what stands behind a closed gate means nothing",
        disks: &[(0, Given::Bytes(CUT_CLOSED))],
        words: &["show"],
        ..ROW
    },
    Row {
        shows: "a batch that is cut",
        disks: &[(0, Given::Bytes(CUT))],
        words: &["show"],
        status: Status::NotLog {
            shard: 0,
            at: At::Byte(47),
        },
        bytes: CUT,
        ..ROW
    },
    Row {
        shows: "a gate that is missing",
        disks: &[(0, Given::Bytes(NO_GATE))],
        words: &["show"],
        status: Status::NotLog {
            shard: 0,
            at: At::Byte(107),
        },
        bytes: NO_GATE,
        ..ROW
    },
    Row {
        shows: "no bytes",
        disks: &[(0, Given::Bytes(b""))],
        words: &["show"],
        status: Status::NotLog {
            shard: 0,
            at: At::Byte(0),
        },
        lengths: &[0],
        ..ROW
    },
    Row {
        shows: "another magic",
        disks: &[(
            0,
            Given::Bytes(b"CLVLOG03\x02\0\0\0\0\0\0\0\x01\0\0\0\x01\0\0\0\0\0\0\0\0"),
        )],
        words: &["show"],
        status: Status::NotLog {
            shard: 0,
            at: At::Byte(0),
        },
        ..ROW
    },
    Row {
        shows: "another version",
        disks: &[(
            0,
            Given::Bytes(b"CLVLOG02\x01\0\0\0\0\0\0\0\x01\0\0\0\x01\0\0\0\0\0\0\0\0"),
        )],
        words: &["show"],
        status: Status::NotLog {
            shard: 0,
            at: At::Byte(8),
        },
        ..ROW
    },
    Row {
        shows: "another version behind the first one's magic",
        disks: &[(0, Given::Bytes(b"CLVLOG01\x02\0\0\0\0\0\0\0\x01\0\0\0\0"))],
        words: &["show"],
        status: Status::NotLog {
            shard: 0,
            at: At::Byte(8),
        },
        ..ROW
    },
    Row {
        shows: "another shard",
        disks: &[(0, Given::Bytes(SECOND))],
        words: &["show"],
        status: Status::NotLog {
            shard: 0,
            at: At::Byte(12),
        },
        ..ROW
    },
    Row {
        shows: "no shards",
        disks: &[(
            0,
            Given::Bytes(b"CLVLOG02\x02\0\0\0\0\0\0\0\0\0\0\0\x01\0\0\0\0\0\0\0\0"),
        )],
        words: &["show"],
        status: Status::NotLog {
            shard: 0,
            at: At::Byte(16),
        },
        ..ROW
    },
    Row {
        shows: "no generation",
        disks: &[(
            0,
            Given::Bytes(b"CLVLOG02\x02\0\0\0\0\0\0\0\x01\0\0\0\0\0\0\0\0\0\0\0\0"),
        )],
        words: &["show"],
        status: Status::NotLog {
            shard: 0,
            at: At::Byte(20),
        },
        ..ROW
    },
    Row {
        shows: "a header that is cut",
        disks: &[(
            0,
            Given::Bytes(b"CLVLOG02\x02\0\0\0\0\0\0\0\x01\0\0\0\x01\0\0\0\0\0\0"),
        )],
        words: &["show"],
        status: Status::NotLog {
            shard: 0,
            at: At::Byte(0),
        },
        ..ROW
    },
    Row {
        shows: "a batch without records",
        disks: &[(
            0,
            Given::Bytes(b"CLVLOG02\x02\0\0\0\0\0\0\0\x01\0\0\0\x01\0\0\0\0\0\0\0\x01\0\0\0\0\0"),
        )],
        words: &["show"],
        status: Status::NotLog {
            shard: 0,
            at: At::Byte(29),
        },
        ..ROW
    },
    Row {
        shows: "no kind of record",
        disks: &[(
            0,
            Given::Bytes(
                b"CLVLOG02\x02\0\0\0\0\0\0\0\x01\0\0\0\x01\0\0\0\0\0\0\0\x01\x01\0\0\0\x08\0",
            ),
        )],
        words: &["show"],
        status: Status::NotLog {
            shard: 0,
            at: At::Byte(33),
        },
        ..ROW
    },
    Row {
        shows: "other splits on the second shard",
        disks: &[
            (0, Given::Bytes(FIRST)),
            (
                1,
                Given::Bytes(
                    b"CLVLOG02\x02\0\0\0\x01\0\0\0\x02\0\0\0\x0b\0\0\0\0\0\0\0\x01\0\0\0\0\0\0\0\0",
                ),
            ),
        ],
        words: &["show"],
        status: Status::NotLog {
            shard: 1,
            at: At::Byte(20),
        },
        bytes: FIRST,
        ..ROW
    },
];

pub fn rows() -> &'static [Row] {
    ROWS
}
