//! The core over all shards: worlds of machines, run by a list of steps, with what each crash and each flush comes to chosen by the list.
//! A step that the definitions don't allow, that is quiet or that is worn leaves the world as it was; every other one adds exactly its
//! entry. So the world's history is legal, and has the whole promise. Machines are known by their traits (`machine_calls`), whatever
//! their stores and locks; their logs are lists in memory, and what a step needs of the history so far is read from it.
#![tactic(auto)]

mod clocks;
mod flushing;
mod following;
mod gate;
mod goings_back;
mod leaving;
mod making;
mod messages;
mod moving;
mod offering;
mod opening;
mod placing;
mod reading;
mod restarting;
mod running;
mod seat;
mod seat_steps;
mod sessions;
mod world;

pub use clocks::clock_of;
pub use flushing::{flush_in, flush_out};
pub use following::session_of;
pub use gate::ListGate;
pub use leaving::leave;
pub use messages::was_sent;
pub use opening::open;
pub use restarting::restart;
pub use running::run_events;
pub use seat::{Air, Seat};
pub use seat_steps::step;
pub use sessions::Session;
pub use world::World;
