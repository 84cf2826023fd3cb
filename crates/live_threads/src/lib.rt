//! Live sessions on threads: one reads the input, each session does its lines on a thread of its own, and one writes all answers. It stands on what a session's
//! calls promise, and knows of no cluster.
//!
//! Behind the join what each session took is a front of its lines of the input, and what the sink took are the lines of replies, of each session's a front; where
//! nothing failed, all of both.
#![tactic(auto)]

mod ending;
mod seating;
mod seats;
mod together;
mod works;

pub use seats::Place;
pub use together::{Streams, serve_places};
