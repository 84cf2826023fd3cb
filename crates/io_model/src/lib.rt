//! What the program's outside is to its users: disks, and a house of them; a source and a sink of bytes; and a pace that a test may hold.
//! Of a disk the traits `Disk` and `House` carry as clauses which calls it was asked, what a read of it gives, and what a crash may leave. An
//! implementation may tell its story (the bytes at first and the calls since), a source what is left, a sink what it took, and then the clauses
//! on content hold; files of the system and std's readers and writers tell none. Each counts its faults.

#![tactic(auto)]

mod adapters;
mod disk;
mod file;
mod file_house;
mod house;
mod memory;
mod pace;
mod sides;
mod streams;
mod whole;

pub use adapters::{ReadSource, WriteSink};
pub use disk::{Disk, Failed};
pub use file::FileDisk;
pub use file_house::FileHouse;
pub use house::House;
pub use memory::{MemorySink, MemorySource};
pub use pace::{NoPace, Pace, Step};
pub use sides::{Sides, give_sides, open_sides};
pub use streams::{Sink, Source};
pub use whole::{ReadError, read_all, write_all};
