// Bytes of sides, and what is written of none.

/// 28 bytes of header, of generation 1, and a closed gate.
pub const EMPTY: &[u8] = b"CLVLOG02\x02\0\0\0\0\0\0\0\x01\0\0\0\x01\0\0\0\0\0\0\0\0";

/// Behind the header a batch with the RESTART of run 1, and a batch with an UPDATE of key 5 from none to 10 and its COMMIT.
pub const ONE_PUT: &[u8] =
    b"CLVLOG02\x02\0\0\0\0\0\0\0\x01\0\0\0\x01\0\0\0\0\0\0\0\x01\x0d\0\0\0\x07\x01\0\0\0\0\0\0\0\0\0\0\0\x01\x38\0\0\0\x01\x01\0\0\0\x01\0\0\0\x01\0\0\0\0\0\0\0\x05\0\0\0\0\0\0\0\0\x01\x0a\0\0\0\0\0\0\0\x04\x01\0\0\0\x01\0\0\0\x01\0\0\0\0\0\0\0\0\0\0\0\0";

/// Behind the RESTART a batch with two UPDATEs of key 5, from none to 1 and on to 2, the CLR of the second one, which leads to the first, and the COMMIT.
pub const WENT_BACK: &[u8] =
    b"CLVLOG02\x02\0\0\0\0\0\0\0\x01\0\0\0\x01\0\0\0\0\0\0\0\x01\x0d\0\0\0\x07\x01\0\0\0\0\0\0\0\0\0\0\0\x01\x8d\0\0\0\x01\x01\0\0\0\x01\0\0\0\x01\0\0\0\0\0\0\0\x05\0\0\0\0\0\0\0\0\x01\x01\0\0\0\0\0\0\0\x01\x01\0\0\0\x01\0\0\0\x01\0\0\0\0\0\0\0\x05\0\0\0\0\0\0\0\x01\x01\0\0\0\0\0\0\0\x01\x02\0\0\0\0\0\0\0\x02\x01\0\0\0\x01\0\0\0\x01\0\0\0\0\0\0\0\x01\0\0\0\0\0\0\0\x05\0\0\0\0\0\0\0\x01\x01\0\0\0\0\0\0\0\x04\x01\0\0\0\x01\0\0\0\x01\0\0\0\0\0\0\0\0\0\0\0\0";

/// The log of one put, as it is written anew with generation 2.
pub const NEWER: &[u8] =
    b"CLVLOG02\x02\0\0\0\0\0\0\0\x01\0\0\0\x02\0\0\0\0\0\0\0\x01\x0d\0\0\0\x07\x01\0\0\0\0\0\0\0\0\0\0\0\x01\x38\0\0\0\x01\x01\0\0\0\x01\0\0\0\x01\0\0\0\0\0\0\0\x05\0\0\0\0\0\0\0\0\x01\x0a\0\0\0\0\0\0\0\x04\x01\0\0\0\x01\0\0\0\x01\0\0\0\0\0\0\0\0\0\0\0\0";

/// What the program wrote first: version 1, with 20 bytes of header. An empty log, and that of one put.
pub const FIRST_EMPTY: &[u8] = b"CLVLOG01\x01\0\0\0\0\0\0\0\x01\0\0\0\0";

pub const FIRST_PUT: &[u8] =
    b"CLVLOG01\x01\0\0\0\0\0\0\0\x01\0\0\0\x01\x0d\0\0\0\x07\x01\0\0\0\0\0\0\0\0\0\0\0\x01\x38\0\0\0\x01\x01\0\0\0\x01\0\0\0\x01\0\0\0\0\0\0\0\x05\0\0\0\0\0\0\0\0\x01\x0a\0\0\0\0\0\0\0\x04\x01\0\0\0\x01\0\0\0\x01\0\0\0\0\0\0\0\0\0\0\0\0";

/// The first and the second of two shards with the split 10, as they are made.
pub const FIRST: &[u8] =
    b"CLVLOG02\x02\0\0\0\0\0\0\0\x02\0\0\0\x0a\0\0\0\0\0\0\0\x01\0\0\0\0\0\0\0\0";

pub const SECOND: &[u8] =
    b"CLVLOG02\x02\0\0\0\x01\0\0\0\x02\0\0\0\x0a\0\0\0\0\0\0\0\x01\0\0\0\0\0\0\0\0";

/// A script of one put, and its report.
pub const PUT: &[u8] = b"session\nbegin\nput 5 10\ncommit\n";

pub const PUT_REPORT: &[u8] =
    b"{\"ops\":[[\"put\",5,10,null]],\"serial\":1,\"session\":1}\n{\"aborted\":0,\"acknowledged\":1,\"unsettled\":0}\n";

/// The report of a script that does nothing.
pub const NONE: &[u8] = b"{\"aborted\":0,\"acknowledged\":0,\"unsettled\":0}\n";
