//! A lock that is served in turns, round a value with a journal. Who enters draws a ticket, waits until it is served and takes the value out; who
//! leaves puts it back and serves the next. It promises each pass a value that extends what the pass has seen, by entries of other passes alone, and
//! at the end a journal in which each pass's entries stand once, in order, and no others.
//! Beside the turns the lock has a horizon, a published count of what is durable, which is read and raised without a turn and without waiting.
//! `BatchGate` tells who writes the next batch of a log, and who sleeps until it is written: one at a time writes, and what one batch carries
//! others need not ask for again. No proof rests on it: it guards nothing.
//! It stands on `atomic_table`, the proof base for words and slots that threads share.
#![tactic(auto)]

mod door;
mod gate;
mod journaled;
mod lock;
mod pass;
mod steps;
mod view;

pub use gate::{Batch, BatchGate, Writer};
pub use journaled::Journaled;
pub use lock::Memory;
pub use pass::{Pass, PassOf, Turn, TurnLock, TurnOf};
