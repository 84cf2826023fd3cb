// Runs of `load` over two shards.

use crate::row::{Given, ROW, Row};

const MAKE: Row = Row {
    shows: "two shards",
    disks: &[(0, Given::Bytes(b"")), (1, Given::Bytes(b""))],
    words: &["make", "2"],
    lengths: &[37, 37],
    ..ROW
};

const ROWS: &[Row] = &[
    MAKE,
    Row {
        shows: "accounts are filled",
        words: &[
            "load",
            "--seed",
            "0",
            "--sessions",
            "1",
            "--accounts",
            "2",
            "--transfers",
            "0",
        ],
        text: b"{\"accounts\":2,\"acknowledged\":1,\"sum\":2000}\n",
        ..ROW
    },
    Row {
        shows: "the filled accounts",
        words: &["show"],
        text: b"[0,1000]\n[1,1000]\n",
        ..ROW
    },
    MAKE,
    Row {
        shows: "transfers of three sessions",
        words: &[
            "load",
            "--transfers",
            "2",
            "--seed",
            "7",
            "--sessions",
            "3",
            "--accounts",
            "4",
        ],
        text: b"{\"accounts\":4,\"acknowledged\":7,\"sum\":4000}\n",
        ..ROW
    },
];

pub fn rows() -> &'static [Row] {
    ROWS
}
