// Runs of `show` over logs out of order, apart or open at their end.

use crate::disks::{EMPTY, FIRST, FIRST_EMPTY, FIRST_PUT, NEWER, ONE_PUT, PUT, PUT_REPORT, SECOND};
use crate::row::{Given, ROW, Row};
use cluster_opening::At;
use clv_base::names::TxId;
use command_line::Status;

// A RESTART of run 1, and an UPDATE of key 5 from 7 to 8.
const WRONG_BEFORE: &[u8] =
    b"CLVLOG02\x02\0\0\0\0\0\0\0\x01\0\0\0\x01\0\0\0\0\0\0\0\x01\x38\0\0\0\x07\x01\0\0\0\0\0\0\0\0\0\0\0\x01\x01\0\0\0\x01\0\0\0\x01\0\0\0\0\0\0\0\x05\0\0\0\0\0\0\0\x01\x07\0\0\0\0\0\0\0\x01\x08\0\0\0\0\0\0\0\0";

// A RESTART of run 4294967295.
const LAST_RUN: &[u8] =
    b"CLVLOG02\x02\0\0\0\0\0\0\0\x01\0\0\0\x01\0\0\0\0\0\0\0\x01\x0d\0\0\0\x07\xff\xff\xff\xff\0\0\0\0\0\0\0\0\0";

// A RESTART of run 1, and an UPDATE of key 5 from none to 10 without a COMMIT.
const OPEN: &[u8] =
    b"CLVLOG02\x02\0\0\0\0\0\0\0\x01\0\0\0\x01\0\0\0\0\0\0\0\x01\x30\0\0\0\x07\x01\0\0\0\0\0\0\0\0\0\0\0\x01\x01\0\0\0\x01\0\0\0\x01\0\0\0\0\0\0\0\x05\0\0\0\0\0\0\0\0\x01\x0a\0\0\0\0\0\0\0\0";

// Behind it a batch with the ABORT, a CLR of key 5 to none with no next one to undo, and the RESTART of run 2.
const UNDONE: &[u8] =
    b"CLVLOG02\x02\0\0\0\0\0\0\0\x01\0\0\0\x01\0\0\0\0\0\0\0\x01\x30\0\0\0\x07\x01\0\0\0\0\0\0\0\0\0\0\0\x01\x01\0\0\0\x01\0\0\0\x01\0\0\0\0\0\0\0\x05\0\0\0\0\0\0\0\0\x01\x0a\0\0\0\0\0\0\0\x01\x40\0\0\0\x05\x01\0\0\0\x01\0\0\0\x01\0\0\0\0\0\0\0\x02\x01\0\0\0\x01\0\0\0\x01\0\0\0\0\0\0\0\xff\xff\xff\xff\xff\xff\xff\xff\x05\0\0\0\0\0\0\0\0\x07\x02\0\0\0\0\0\0\0\0\0\0\0\0";

// One transaction on both of two shards.
const BOTH: &[u8] = b"session\nbegin\nput 1 1\nput 11 1\ncommit\n";

const BOTH_REPORT: &[u8] =
    b"{\"ops\":[[\"put\",1,1,null],[\"put\",11,1,null]],\"serial\":1,\"session\":1}\n{\"aborted\":0,\"acknowledged\":1,\"unsettled\":0}\n";

const TWO: &[(u32, Given)] = &[(0, Given::Bytes(FIRST)), (1, Given::Bytes(SECOND))];

const APART: Status = Status::Apart {
    tx: TxId {
        run: 1,
        session: 1,
        serial: 1,
    },
};

const ROWS: &[Row] = &[
    Row {
        shows: "a record out of order",
        disks: &[(0, Given::Bytes(WRONG_BEFORE))],
        words: &["show"],
        status: Status::NotLog {
            shard: 0,
            at: At::Record(1),
        },
        bytes: WRONG_BEFORE,
        ..ROW
    },
    Row {
        shows: "the last run",
        disks: &[(0, Given::Bytes(LAST_RUN))],
        words: &["show"],
        status: Status::Worn { at: 4294967296 },
        bytes: LAST_RUN,
        ..ROW
    },
    Row {
        shows: "what was left open is undone",
        disks: &[(0, Given::Bytes(OPEN))],
        words: &["show"],
        bytes: UNDONE,
        ..ROW
    },
    Row {
        shows: "a transaction on two shards",
        disks: TWO,
        words: &["run"],
        script: BOTH,
        text: BOTH_REPORT,
        ..ROW
    },
    Row {
        shows: "the second disk is a new one",
        disks: &[(1, Given::Bytes(SECOND))],
        words: &["show"],
        status: APART,
        ..ROW
    },
    Row {
        shows: "a transaction on two shards, again",
        disks: TWO,
        words: &["run"],
        script: BOTH,
        text: BOTH_REPORT,
        ..ROW
    },
    Row {
        shows: "the first disk is a new one",
        disks: &[(0, Given::Bytes(FIRST))],
        words: &["show"],
        status: APART,
        bytes: FIRST,
        ..ROW
    },
    Row {
        shows: "one put that is whole",
        disks: &[(0, Given::Bytes(ONE_PUT))],
        words: &["show"],
        text: b"[5,10]\n",
        lengths: &[126],
        ..ROW
    },
    Row {
        shows: "a log that was just made",
        disks: &[(0, Given::Bytes(EMPTY))],
        words: &["show"],
        lengths: &[47],
        ..ROW
    },
    Row {
        shows: "the newer side is the log",
        disks: &[(0, Given::Both(EMPTY, NEWER))],
        words: &["show"],
        text: b"[5,10]\n",
        bytes: EMPTY,
        ..ROW
    },
    Row {
        shows: "on whichever side it stands",
        disks: &[(0, Given::Both(NEWER, EMPTY))],
        words: &["show"],
        text: b"[5,10]\n",
        lengths: &[126],
        ..ROW
    },
    Row {
        shows: "a side that isn't in use says nothing",
        disks: &[(0, Given::Both(b"", NEWER))],
        words: &["show"],
        text: b"[5,10]\n",
        lengths: &[0],
        ..ROW
    },
    Row {
        shows: "sides of one generation",
        disks: &[(0, Given::Both(EMPTY, ONE_PUT))],
        words: &["show"],
        status: Status::NotLog {
            shard: 0,
            at: At::Byte(0),
        },
        bytes: EMPTY,
        ..ROW
    },
    Row {
        shows: "another shard's log on the second side",
        disks: &[(0, Given::Both(FIRST, SECOND)), (1, Given::Bytes(SECOND))],
        words: &["show"],
        status: Status::NotLog {
            shard: 0,
            at: At::Byte(12),
        },
        bytes: FIRST,
        ..ROW
    },
    Row {
        shows: "a log of version 1 goes on as it was",
        disks: &[(0, Given::Bytes(FIRST_EMPTY))],
        words: &["run"],
        script: PUT,
        text: PUT_REPORT,
        bytes: FIRST_PUT,
        ..ROW
    },
    Row {
        shows: "whatever stands on the second side",
        disks: &[(0, Given::Both(FIRST_PUT, NEWER))],
        words: &["show"],
        text: b"[5,10]\n",
        lengths: &[118],
        ..ROW
    },
];

pub fn rows() -> &'static [Row] {
    ROWS
}
