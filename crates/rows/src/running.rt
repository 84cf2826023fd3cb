// Runs of scripts, and what `show` finds behind them.

use crate::disks::{EMPTY, NONE, ONE_PUT, PUT, PUT_REPORT, WENT_BACK};
use crate::row::{Given, ROW, Row};
use command_line::Status;

const ROWS: &[Row] = &[
    Row {
        shows: "a put",
        disks: &[(0, Given::Bytes(EMPTY))],
        words: &["run"],
        script: PUT,
        text: PUT_REPORT,
        bytes: ONE_PUT,
        ..ROW
    },
    Row {
        shows: "an audit of its report",
        words: &["audit"],
        script: PUT_REPORT,
        text: b"yes 1\n",
        bytes: ONE_PUT,
        ..ROW
    },
    Row {
        shows: "an audit of another value",
        words: &["audit"],
        script: b"{\"ops\":[[\"put\",5,11,null]],\"serial\":1,\"session\":1}\n{\"aborted\":0,\"acknowledged\":1,\"unsettled\":0}\n",
        status: Status::WrongMap { key: 5 },
        text: b"no: key 5\n",
        bytes: ONE_PUT,
        ..ROW
    },
    Row {
        shows: "an audit of another value before",
        words: &["audit"],
        script: b"{\"ops\":[[\"put\",5,10,3]],\"serial\":1,\"session\":1}\n{\"aborted\":0,\"acknowledged\":1,\"unsettled\":0}\n",
        status: Status::WrongTransaction { place: 1 },
        text: b"no: transaction 1\n",
        bytes: ONE_PUT,
        ..ROW
    },
    Row {
        shows: "an audit of unsettled ones, over a sink that fails",
        failing: [&[], &[], &[2]],
        words: &["audit"],
        script: b"{\"aborted\":0,\"acknowledged\":0,\"unsettled\":7}\n",
        status: Status::Unsettled { count: 7 },
        text: b"unset",
        bytes: ONE_PUT,
        ..ROW
    },
    Row {
        shows: "an audit of no report",
        words: &["audit"],
        script: b"[5,10]\n",
        status: Status::Script { line: 2 },
        bytes: ONE_PUT,
        ..ROW
    },
    Row {
        shows: "the pair that was put",
        words: &["show"],
        text: b"[5,10]\n",
        lengths: &[126],
        ..ROW
    },
    Row {
        shows: "no script",
        disks: &[(0, Given::Bytes(EMPTY))],
        words: &["run"],
        text: NONE,
        lengths: &[47],
        ..ROW
    },
    Row {
        shows: "no operation",
        disks: &[(0, Given::Bytes(EMPTY))],
        words: &["run"],
        script: b"session\nbegin\ncommit\n",
        text: NONE,
        lengths: &[47],
        ..ROW
    },
    Row {
        shows: "no transaction",
        disks: &[(0, Given::Bytes(EMPTY))],
        words: &["run"],
        script: b"# nothing\n\nsession",
        text: NONE,
        lengths: &[47],
        ..ROW
    },
    Row {
        shows: "the answers of one key",
        words: &["run"],
        script: b"session\nbegin\nput 5 10\nput 5 11\nget 5\ndel 5\nget 5\ncommit\n",
        text: b"{\"ops\":[[\"put\",5,10,null],[\"put\",5,11,10],[\"get\",5,11],[\"del\",5,11],[\"get\",5,null]],\"serial\":1,\"session\":1}\n{\"aborted\":0,\"acknowledged\":1,\"unsettled\":0}\n",
        ..ROW
    },
    Row {
        shows: "moves, and a transaction that is ended by abort",
        disks: &[(0, Given::Bytes(EMPTY))],
        words: &["run", "--tries", "3"],
        script: b"session\nbegin\nput 1 100\nput 2 0\ncommit\nbegin\nmove 1 2 30\ncommit\nbegin\nmove 2 9 1\ncommit\nbegin\nput 2 7\nabort\n",
        text: b"{\"ops\":[[\"put\",1,100,null],[\"put\",2,0,null]],\"serial\":1,\"session\":1}\n{\"ops\":[[\"get\",1,100],[\"get\",2,0],[\"put\",1,70,100],[\"put\",2,30,0]],\"serial\":2,\"session\":1}\n{\"ops\":[[\"get\",2,30],[\"get\",9,null]],\"serial\":3,\"session\":1}\n{\"aborted\":1,\"acknowledged\":3,\"unsettled\":0}\n",
        ..ROW
    },
    Row {
        shows: "the pairs that were moved",
        words: &["show"],
        text: b"[1,70]\n[2,30]\n",
        ..ROW
    },
    Row {
        shows: "additions: beyond the last number, to no value, to a text, and two that an abort takes away",
        disks: &[(0, Given::Bytes(EMPTY))],
        words: &["run"],
        script: b"session\nbegin\nput 5 18446744073709551615\nadd 5 3\nget 5\nadd 9 1\ncommit\nbegin\nbytes 7 00ff\nadd 7 1\ncommit\nbegin\nadd 5 5\nadd 5 6\nabort\nbegin\nadd 5 0\nget 5\ncommit\n",
        text: b"{\"ops\":[[\"put\",5,18446744073709551615,null],[\"add\",5,3,true],[\"get\",5,2],[\"add\",9,1,false]],\"serial\":1,\"session\":1}\n{\"ops\":[[\"put\",7,\"00ff\",null],[\"add\",7,1,false]],\"serial\":2,\"session\":1}\n{\"ops\":[[\"add\",5,0,true],[\"get\",5,2]],\"serial\":4,\"session\":1}\n{\"aborted\":1,\"acknowledged\":3,\"unsettled\":0}\n",
        ..ROW
    },
    Row {
        shows: "the sum, and the text",
        words: &["show"],
        text: b"[5,2]\n[7,\"00ff\"]\n",
        ..ROW
    },
    Row {
        shows: "a put that is taken back",
        disks: &[(0, Given::Bytes(EMPTY))],
        words: &["run"],
        script: b"session\nbegin\nput 5 1\nsave\nput 5 2\nget 5\nback 1\nget 5\ncommit\n",
        text: b"{\"ops\":[[\"put\",5,1,null],[\"put\",5,2,1],[\"get\",5,2],[\"back\",1],[\"get\",5,1]],\"serial\":1,\"session\":1}\n{\"aborted\":0,\"acknowledged\":1,\"unsettled\":0}\n",
        bytes: WENT_BACK,
        ..ROW
    },
    Row {
        shows: "the pair from before the savepoint",
        words: &["show"],
        text: b"[5,1]\n",
        lengths: &[211],
        ..ROW
    },
    Row {
        shows: "savepoints with nothing to take back, and numbers that go on behind forgotten ones",
        disks: &[(0, Given::Bytes(EMPTY))],
        words: &["run"],
        script: b"session\nbegin\nsave\nget 5\nback 1\nsave\nback 1\nsave\nput 5 10\nback 3\nback 1\nget 5\ncommit\nbegin\nsave\nback 1\ncommit\n",
        text: b"{\"ops\":[[\"get\",5,null],[\"put\",5,10,null],[\"back\",1],[\"get\",5,null]],\"serial\":1,\"session\":1}\n{\"aborted\":0,\"acknowledged\":1,\"unsettled\":0}\n",
        ..ROW
    },
    Row {
        shows: "a savepoint that is forgotten",
        disks: &[(0, Given::Bytes(EMPTY))],
        words: &["run"],
        script: b"session\nbegin\nsave\nsave\nback 1\nback 2\ncommit\n",
        status: Status::Script { line: 6 },
        bytes: EMPTY,
        ..ROW
    },
    Row {
        shows: "the second of two sessions",
        disks: &[(0, Given::Bytes(EMPTY))],
        words: &["run"],
        script: b"session\nbegin\nget 5\nabort\nsession\nbegin\nput 5 10\ncommit\n",
        text: b"{\"ops\":[[\"put\",5,10,null]],\"serial\":1,\"session\":2}\n{\"aborted\":1,\"acknowledged\":1,\"unsettled\":0}\n",
        ..ROW
    },
    Row {
        shows: "three shards",
        disks: &[
            (0, Given::Bytes(b"")),
            (1, Given::Bytes(b"")),
            (2, Given::Bytes(b"")),
        ],
        words: &["make", "10", "20"],
        lengths: &[45, 45, 45],
        ..ROW
    },
    Row {
        shows: "a scan over three shards",
        words: &["run"],
        script: b"session\nbegin\nput 0 1\nput 10 2\nput 20 3\nput 18446744073709551615 4\ncommit\nbegin\nscan 0 18446744073709551615\ncommit\n",
        text: b"{\"ops\":[[\"put\",0,1,null],[\"put\",10,2,null],[\"put\",20,3,null],[\"put\",18446744073709551615,4,null]],\"serial\":1,\"session\":1}\n{\"ops\":[[\"scan\",0,18446744073709551615,[[0,1],[10,2],[20,3],[18446744073709551615,4]]]],\"serial\":2,\"session\":1}\n{\"aborted\":0,\"acknowledged\":2,\"unsettled\":0}\n",
        ..ROW
    },
    Row {
        shows: "the pairs of three shards",
        words: &["show"],
        text: b"[0,1]\n[10,2]\n[20,3]\n[18446744073709551615,4]\n",
        ..ROW
    },
    Row {
        shows: "a going back over three shards, behind a put that stays",
        words: &["run"],
        script: b"session\nbegin\nput 0 7\nsave\nadd 0 5\ndel 10\nput 21 9\nback 1\nscan 0 30\ncommit\n",
        text: b"{\"ops\":[[\"put\",0,7,1],[\"add\",0,5,true],[\"del\",10,2],[\"put\",21,9,null],[\"back\",1],[\"scan\",0,30,[[0,7],[10,2],[20,3]]]],\"serial\":1,\"session\":1}\n{\"aborted\":0,\"acknowledged\":1,\"unsettled\":0}\n",
        ..ROW
    },
    Row {
        shows: "what stayed",
        words: &["show"],
        text: b"[0,7]\n[10,2]\n[20,3]\n[18446744073709551615,4]\n",
        ..ROW
    },
    Row {
        shows: "a line outside the grammar",
        disks: &[(0, Given::Bytes(EMPTY))],
        words: &["run"],
        script: b"session\nbegin\nscan 9 3\n",
        status: Status::Script { line: 3 },
        bytes: EMPTY,
        ..ROW
    },
    Row {
        shows: "a script that ends in a transaction",
        words: &["run"],
        script: b"session\nbegin\n",
        status: Status::Script { line: 3 },
        bytes: EMPTY,
        ..ROW
    },
];

pub fn rows() -> &'static [Row] {
    ROWS
}
