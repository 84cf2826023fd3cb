//! What the program is told, and how it ends: the words of the command line (`make [SPLIT]..`, `run [--tries N]`, `show`,
//! `load --seed S --sessions N --accounts A --transfers T`, `serve [--sessions N]`, `audit`, and `standby [N]..`), and the statuses with their numbers and texts.
//!
//! `command_of` gives exactly the command that the words are, where `clap` takes them for one of these subcommands and their numbers are spelled as
//! in scripts and within their bounds. A part that refuses before the shards are opened is the status by itself, by `From`; of a run that opened
//! them the parts' ends are put together by `graver`, and `running_status` finds the status: a disk's fault before worn stamps, these before want
//! of memory; `after_text` goes on with what became of the text. It stands on `clap`, and on the errors of the parts of a run.

#![tactic(auto)]

mod commands;
mod counts;
mod grammar;
mod meanings;
mod refusals;
mod running;
mod status;

pub use commands::{Command, WordsError};
pub use counts::RecordCounts;
pub use meanings::command_of;
pub use running::{after_text, graver, running_status};
pub use status::Status;
