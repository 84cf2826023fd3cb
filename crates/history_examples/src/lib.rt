//! Worked histories, so that no law speaks of nothing: lists of events and what they come to, legal histories over one and two shards for
//! which the premises of the laws are computed (commits over both shards, crashes, restarts, openings with a transaction in doubt, a
//! reader, waits, deaths, drops and additions), a cut that is no moment, and a part of a history that is no cut. Each fact is the clause of a
//! function with an empty body. An example with several transactions says all that was answered, the records of each log and the live
//! pairs of each shard. No crate stands on this one.
#![tactic(auto)]

pub mod aborted;
pub mod adding;
pub mod cascades;
pub mod committed;
pub mod crashes;
pub mod cut;
pub mod doubt;
pub mod doubts;
pub mod dropped;
pub mod flight;
pub mod going_back;
pub mod histories;
pub mod legal;
pub mod logs;
pub mod messages;
pub mod reading;
pub mod reopened;
pub mod restarted;
pub mod scans;
pub mod soundness;
pub mod undone;
pub mod waiting;
pub mod wide_waiting;
pub mod writers;
