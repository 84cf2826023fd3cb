//! What a standby shows of the streams that it was fed, whatever their cuts: who its members are, and the map of what they wrote.
//!
//! The definitions stand in specs/. The one law says that the members are what their description says, the greatest set of transactions that are whole,
//! with all that are committed before them; it is the clause of a function with an empty body.
#![tactic(auto)]

pub mod laws;
