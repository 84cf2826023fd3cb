//! The report of a run is told to be true by an audit.
//!
//! In a legal history of which nothing is unsettled, the pairs that the logs found stand for, with the report of the history behind them, are
//! right transaction by transaction, and lead to what the logs left stand for. New beside the promise is that a report joins the parts of a scan,
//! and that each member was told so: a request without an answer is counted as unsettled. It stands on the promise of `headline_laws`, the books of
//! `session_books`, and the verdicts of `clv_audit`.
#![tactic(auto)]

pub mod statements;
