// Events of a shard, and their outcomes.

use crate::causes::AbortCause;
use crate::kept::KeptOp;
use crate::lists::Touched;
use crate::messages::Message;
use crate::names::{Birth, TxId};
use crate::ops::Answer;

/// One event of a shard.
#[derive(Drop)]
pub enum Event {
    /// A session asks for its operation number `nth`; `seen` is the epoch that it was answered at its first touch of the shard, if it touched it.
    Op {
        tx: TxId,
        birth: Birth,
        nth: u64,
        seen: Option<u64>,
        op: KeptOp,
    },
    /// A session goes back to where it was after its operations numbered up to `upto`: what later ones wrote here is taken away. It takes the
    /// number `nth`; `seen` is as of an operation.
    RollTo {
        tx: TxId,
        nth: u64,
        seen: u64,
        upto: u64,
    },
    /// A session asks its home to commit; `parts` are the touched shards with their epochs, rising.
    Request {
        tx: TxId,
        parts: Touched,
    },
    /// A session looks at its home how its request was decided.
    Look {
        tx: TxId,
    },
    /// A session drops its part.
    Drop {
        tx: TxId,
    },
    /// The oldest message of the outbox is taken out.
    Send,
    /// A message that was sent with this stamp comes.
    Deliver {
        message: Message,
        stamp: u64,
    },
    /// What is still missing is asked for again.
    Remind,
    /// The next records are taken to the disk.
    FlushOut,
    /// They are durable, or the flush failed.
    FlushIn,
    /// The shard stops.
    Stop,
    /// The shard is made again from its log.
    Restart,
}

/// What an event comes to. Those from `Wait` on are quiet.
#[derive(Drop)]
pub enum Outcome {
    /// The operation was done; the shard has this epoch.
    Answered { answer: Answer, epoch: u64 },
    /// What the later operations wrote here is taken away.
    Rolled,
    /// The transaction is aborted.
    Dead(AbortCause),
    /// The request stands.
    Asked,
    /// The transaction is committed, or only read what is durable.
    Acknowledged,
    /// The request was decided so.
    Aborted(AbortCause),
    /// The part is gone.
    Dropped,
    /// This message left the outbox.
    Sent(Message),
    /// The message was taken.
    Taken,
    /// So many messages were put in the outbox.
    Reminded(usize),
    /// The first so many records are durable or in flight.
    Out(u64),
    /// The first so many records are durable.
    Durable(u64),
    /// The flush failed, and the shard is down.
    Failed,
    /// The shard is down.
    Stopped,
    /// The shard is up, with this epoch.
    Up(u64),
    /// Quiet: a younger active transaction holds what is needed.
    Wait { younger: TxId },
    /// Quiet: the grant would make so many undecided predecessors, which are too many.
    Crowded { count: usize },
    /// Quiet: the request isn't decided, or its COMMIT isn't durable.
    NotYet,
    /// Quiet: there is nothing to send, to flush or to remind of.
    Nothing,
    /// Quiet: a flush is under way.
    Away,
    /// Quiet: no part of the transaction is known.
    Absent,
    /// Quiet: the message says nothing that is awaited.
    Stale,
    /// Quiet: the shard is down.
    Down,
}

/// One entry of a shard's journal: when, by which walker (a session's number, or another thread's), what, and what came of it.
#[derive(Drop)]
pub struct Entry {
    pub stamp: u64,
    pub walker: u32,
    pub event: Event,
    pub outcome: Outcome,
}

/// One step of all shards together: an event of a walker on a shard. Of the end of a flush `kept` tells whether it is durable,
/// and of a restart whether it finds the records in flight.
#[derive(Drop)]
pub struct CoreStep {
    pub walker: u32,
    pub shard: u32,
    pub event: Event,
    pub kept: bool,
}

// An entry with numbers costs no more than one whose operations and answers were numbers alone.
const _: () = prove!(size_of::<Entry>() == 184);
