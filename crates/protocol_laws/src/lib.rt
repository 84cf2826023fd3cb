//! Laws of the protocol: what every event, restart, undo and session keeps to, whatever the state; what the order rules make of a log
//! (nothing is written or undone behind a COMMIT, and what is undone is open or aborted by then); what becomes due of a shard's transactions, found
//! by candidates: the next thing that is due, for whom each change may make something due, and how much may still be done; and that each
//! record of a log keeps a spelling, so that a batch of the log always has its bytes.
//!
//! Each law is the clause of a function with an empty body; the statements stand in specs/, by topic. They stand on the definitions of
//! `clv_base` and on `law_base`. Proofs over whole histories cite these laws.
#![tactic(auto)]

pub mod candidates;
pub mod changes;
pub mod depending;
pub mod events;
pub mod left;
pub mod order;
pub mod replay;
pub mod restarts;
pub mod rooms;
pub mod sessions;
pub mod spelling;
pub mod steps;
pub mod undo;
pub mod votes;
