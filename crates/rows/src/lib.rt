//! Tests alone: the program's runs over disks, sources and sinks in memory, a row of a table each.
//!
//! A row says what a run is given, how it ends, what it wrote and what the disks hold behind it; expected values are worked out by hand. They stand in
//! one crate above all others, and in few functions: a crate with a test is proved once more, and each function of a test is proved, too. It stands on
//! `clv_commands` and `disk_memory`.
#![tactic(auto)]

#[cfg(test)]
mod broken;
#[cfg(test)]
mod disks;
#[cfg(test)]
mod faults;
#[cfg(test)]
mod loading;
#[cfg(test)]
mod making;
#[cfg(test)]
mod opening;
#[cfg(test)]
mod row;
#[cfg(test)]
mod running;
#[cfg(test)]
mod serving;
#[cfg(test)]
mod tests;
