//! What the checkpoint of a log in order keeps of it: the laws of `log_checkpoint`, whose premises each log in order meets; that it is in order, and so is
//! what comes behind it; and that shards are opened from it as from the log, each alone and all together.
//!
//! The law is the clause of a function with an empty body; the statement stands in specs/.
#![tactic(auto)]

pub mod laws;
