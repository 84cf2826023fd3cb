// Runs over a disk, a source or a sink that fails at a call.

use crate::disks::{EMPTY, PUT};
use crate::row::{Given, ROW, Row};
use command_line::Status;
use disk_memory::Choice;

const UNSETTLED: &[u8] = b"{\"aborted\":0,\"acknowledged\":0,\"unsettled\":1}\n";

// The twelfth call of a disk is its fifth sync, that behind the gate of the transaction's batch.
const GATE: [&[u64]; 3] = [&[12], &[], &[]];

const ROWS: &[Row] = &[
    Row {
        shows: "a sync that fails",
        disks: &[(0, Given::Bytes(EMPTY))],
        failing: GATE,
        words: &["run"],
        script: PUT,
        status: Status::DiskFault { shard: 0 },
        text: UNSETTLED,
        ..ROW
    },
    Row {
        shows: "the crash behind it lost what wasn't synced",
        disks: &[(0, Given::Image(Choice::Before))],
        words: &["show"],
        ..ROW
    },
    Row {
        shows: "a sync that fails, again",
        disks: &[(0, Given::Bytes(EMPTY))],
        failing: GATE,
        words: &["run"],
        script: PUT,
        status: Status::DiskFault { shard: 0 },
        text: UNSETTLED,
        ..ROW
    },
    Row {
        shows: "the crash behind it kept what was written",
        disks: &[(0, Given::Image(Choice::Written))],
        words: &["show"],
        text: b"[5,10]\n",
        ..ROW
    },
    Row {
        shows: "a disk's fault says more than one of the sink",
        disks: &[(0, Given::Bytes(EMPTY))],
        failing: [&[12], &[], &[2]],
        words: &["run"],
        script: PUT,
        status: Status::DiskFault { shard: 0 },
        text: b"{\"abo",
        ..ROW
    },
    Row {
        shows: "a disk that fails while it is made",
        disks: &[(0, Given::Bytes(b""))],
        failing: [&[1], &[], &[]],
        words: &["make"],
        status: Status::DiskFault { shard: 0 },
        lengths: &[0],
        ..ROW
    },
    Row {
        shows: "a source that fails",
        disks: &[(0, Given::Bytes(EMPTY))],
        failing: [&[], &[2], &[2]],
        words: &["run"],
        script: PUT,
        status: Status::ReadFault,
        bytes: EMPTY,
        ..ROW
    },
    Row {
        shows: "a sink that fails",
        failing: [&[], &[], &[2]],
        words: &["run"],
        script: PUT,
        status: Status::WriteFault,
        text: b"{\"ops",
        lengths: &[108],
        ..ROW
    },
    Row {
        shows: "a sink that fails at pairs",
        failing: [&[], &[], &[1]],
        words: &["show"],
        status: Status::WriteFault,
        ..ROW
    },
];

pub fn rows() -> &'static [Row] {
    ROWS
}
