//! Bytes that stay where they are for as long as the program runs.
#![tactic(auto)]

mod still;

pub use still::Still;
