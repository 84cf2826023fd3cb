//! Who depends on whom on a shard, and the undo of those that depend: a transaction that was granted a lock over a closed one's write is its
//! successor, and goes where it goes. Dependencies are seen as a list of pairs, the LSNs of the COMMITs of settled transactions, marks, and room.
//! It promises that marking gives exactly the set that an abort takes along; and of the undo of the marked (an ABORT for each of which a write stands
//! here, a CLR or UNADD for each of their writes, from the newest one down, while each is taken back in the store), and of a transaction's newest
//! writes when it goes back, exactly the records and the log of the protocol's definition. No call but `new` and those that reserve takes memory. These records follow from the log alone: a call of its own appends
//! them and touches no store. It stands on `log_buffer` and `ordered_store`, and on the law of `protocol_laws` that the set is the least closed one.
#![tactic(auto)]

mod aborts;
mod compensating;
mod deps;
mod marking;
mod marks;
mod pairs;
mod reserving;
mod rolling;
mod room;
mod undoing;
mod waiting;
mod write;

pub use compensating::compensate;
pub use deps::Deps;
pub use rolling::roll_back;
pub use undoing::{roll_to, undo_writes};
