// Live sessions, whose lines come by a source in memory.

use crate::disks::{EMPTY, FIRST, ONE_PUT, SECOND};
use crate::row::{Given, ROW, Row};
use cluster_opening::At;
use command_line::Status;

const ONE: &[&str] = &["serve", "--sessions", "1"];

const ROWS: &[Row] = &[
    Row {
        shows: "a session that puts and gets",
        disks: &[(0, Given::Bytes(EMPTY))],
        words: ONE,
        script: b"1 begin\n1 put 5 10\n1 get 5\n1 commit\n",
        text: b"[1,\"begin\",1]\n[1,\"put\",5,10,null]\n[1,\"get\",5,10]\n[1,\"committed\",1]\n",
        bytes: ONE_PUT,
        ..ROW
    },
    Row {
        shows: "the pair that it put",
        words: &["show"],
        text: b"[5,10]\n",
        ..ROW
    },
    Row {
        shows: "lines that are refused, and one that is passed over",
        words: ONE,
        script: b"# none\n\n1 get 5\n1 retry\n1 begin\n1 begin\n1 move 5 6 1\n1 commit\n",
        text: b"[1,\"refused\",\"no transaction is active\"]\n[1,\"refused\",\"nothing to try again\"]\n[1,\"begin\",1]\n[1,\"refused\",\"a transaction is active\"]\n[1,\"refused\",\"no request\"]\n[1,\"empty\",1]\n",
        ..ROW
    },
    Row {
        shows: "a transaction that is aborted, and tried again",
        words: ONE,
        script: b"1 begin\n1 put 5 11\n1 abort\n1 retry\n1 scan 0 9\n1 del 5\n1 commit",
        text: b"[1,\"begin\",1]\n[1,\"put\",5,11,10]\n[1,\"aborted\",\"asked\"]\n[1,\"begin\",2]\n[1,\"scan\",0,9,[[5,10]]]\n[1,\"del\",5,10]\n[1,\"committed\",2]\n",
        ..ROW
    },
    Row {
        shows: "savepoints, and one that is forgotten",
        disks: &[(0, Given::Bytes(EMPTY))],
        words: ONE,
        script: b"1 save\n1 begin\n1 save\n1 put 5 10\n1 save\n1 put 5 11\n1 back 2\n1 get 5\n1 back 1\n1 back 2\n1 get 5\n1 commit\n",
        text: b"[1,\"refused\",\"no transaction is active\"]\n[1,\"begin\",1]\n[1,\"save\",1]\n[1,\"put\",5,10,null]\n[1,\"save\",2]\n[1,\"put\",5,11,10]\n[1,\"back\",2]\n[1,\"get\",5,10]\n[1,\"back\",1]\n[1,\"refused\",\"no such savepoint\"]\n[1,\"get\",5,null]\n[1,\"committed\",1]\n",
        ..ROW
    },
    Row {
        shows: "two sessions that add to one number",
        disks: &[(0, Given::Bytes(ONE_PUT))],
        words: &["serve", "--sessions", "2"],
        script: b"1 begin\n2 begin\n1 add 5 3\n2 add 5 4\n1 commit\n2 commit\n",
        text: b"[1,\"begin\",1]\n[1,\"add\",5,3,true]\n[1,\"committed\",1]\n[2,\"begin\",1]\n[2,\"add\",5,4,true]\n[2,\"committed\",1]\n",
        meeting: b"12",
        ..ROW
    },
    Row {
        shows: "the sum of both",
        words: &["show"],
        text: b"[5,17]\n",
        ..ROW
    },
    Row {
        shows: "two sessions, and a line of a third",
        disks: &[(0, Given::Bytes(FIRST)), (1, Given::Bytes(SECOND))],
        words: &["serve", "--sessions", "2"],
        script: b"1 begin\n2 begin\n1 put 1 10\n2 put 11 20\n3 begin\n1 commit\n2 commit\n",
        text: b"[0,\"refused\",\"no session\"]\n[1,\"begin\",1]\n[1,\"put\",1,10,null]\n[1,\"committed\",1]\n[2,\"begin\",1]\n[2,\"put\",11,20,null]\n[2,\"committed\",1]\n",
        meeting: b"012",
        ..ROW
    },
    Row {
        shows: "the pairs of both",
        words: &["show"],
        text: b"[1,10]\n[11,20]\n",
        ..ROW
    },
    Row {
        shows: "an input that ends in a transaction",
        words: &["serve"],
        script: b"16 begin\n16 put 1 99",
        text: b"[16,\"begin\",1]\n[16,\"put\",1,99,10]\n",
        ..ROW
    },
    Row {
        shows: "no trace of it",
        words: &["show"],
        text: b"[1,10]\n[11,20]\n",
        ..ROW
    },
    Row {
        shows: "no input",
        words: ONE,
        ..ROW
    },
    Row {
        shows: "a source that fails in the second line",
        disks: &[(0, Given::Bytes(EMPTY))],
        failing: [&[], &[3], &[]],
        words: ONE,
        script: b"1 begin\n1 put 5 10\n1 commit\n",
        status: Status::ReadFault,
        text: b"[1,\"begin\",1]\n",
        lengths: &[47],
        ..ROW
    },
    Row {
        shows: "a sink that fails in the first answer",
        disks: &[(0, Given::Bytes(EMPTY))],
        failing: [&[], &[], &[2]],
        words: ONE,
        script: b"1 begin\n1 begin\n",
        status: Status::WriteFault,
        text: b"[1,\"b",
        lengths: &[47],
        ..ROW
    },
    Row {
        shows: "a sync that fails at a commit",
        disks: &[(0, Given::Bytes(EMPTY))],
        failing: [&[12], &[], &[]],
        words: ONE,
        script: b"1 begin\n1 put 5 10\n1 commit\n1 begin\n",
        status: Status::DiskFault { shard: 0 },
        text: b"[1,\"begin\",1]\n[1,\"put\",5,10,null]\n[1,\"unsettled\",0]\n[1,\"refused\",\"the session has ended\"]\n",
        ..ROW
    },
    Row {
        shows: "sessions past the bound",
        disks: &[(0, Given::Bytes(EMPTY))],
        words: &["serve", "--sessions", "65"],
        script: b"1 begin\n",
        status: Status::Usage,
        bytes: EMPTY,
        ..ROW
    },
    Row {
        shows: "no log",
        disks: &[(0, Given::Bytes(b""))],
        words: ONE,
        script: b"1 begin\n",
        status: Status::NotLog {
            shard: 0,
            at: At::Byte(0),
        },
        lengths: &[0],
        ..ROW
    },
];

pub fn rows() -> &'static [Row] {
    ROWS
}
