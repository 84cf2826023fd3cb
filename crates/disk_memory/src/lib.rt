//! Disks in memory, and a house of them. A disk fails at exactly the calls that it is told to fail, past its room and
//! past the greatest length; it keeps the list of its calls, tells its story, and shows what a crash now leaves, by
//! choice. It stands on the model of disks in `io_model`.
#![tactic(auto)]

mod bytes;
mod house;
mod memory;
mod noted;
mod replay;
mod tape;

pub use house::MemoryHouse;
pub use memory::MemoryDisk;
pub use noted::{Choice, Noted};
