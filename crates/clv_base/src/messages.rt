// Messages between shards.

use crate::causes::Vote;
use crate::names::TxId;

/// A message; `to` is the shard that it is sent to.
#[derive(Clone, Copy, PartialEq, Eq)]
pub enum Message {
    /// The home asks for a vote; `seen` is the epoch that the session was answered at its first touch.
    Prepare {
        to: u32,
        tx: TxId,
        home: u32,
        seen: u64,
    },
    /// A part answers its home.
    Vote {
        to: u32,
        tx: TxId,
        from: u32,
        vote: Vote,
    },
    /// The home tells a part how the transaction was decided.
    Decide {
        to: u32,
        tx: TxId,
        home: u32,
        commit: bool,
    },
    /// A part tells its home that its commit is durable.
    Done {
        to: u32,
        tx: TxId,
        from: u32,
    },
    /// A part asks its home how the transaction was decided.
    Ask {
        to: u32,
        tx: TxId,
        from: u32,
    },
}
