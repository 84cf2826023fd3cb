//! Two-phase commit with presumed abort: a shard as a participant, and as the home of requests.
//! Of the participant: which vote it gives when, what it makes of a decision, and what it asks. Of the home: the votes and acknowledgements that
//! it takes, and what it rules when. It promises that each call is the protocol's definition over the table of voters or of requests and the
//! facts that are handed in. Want of memory comes of the makers, of `on_prepare`, `ask_commit` and the lists alone. Reminders go over the
//! requests that wait, whatever the others are. It stands on the definitions of `clv_base` and on `tx_table`.

#![tactic(auto)]

mod alone;
mod ballot;
mod brief;
mod coordinator;
pub mod coordinator_laws;
mod deciding;
pub mod doubts;
mod form;
mod joint;
mod kept;
mod memory;
mod participant;
mod reminding;
mod ruling;
mod states;
mod votes;
mod voting;
mod waiting_homes;

pub use coordinator::Coordinator;
pub use kept::Kept;
pub use memory::Memory;
pub use participant::Participant;
