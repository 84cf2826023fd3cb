//! What is known by transaction: a value for each of some transactions, or a list of others; which of them pass a test; and for which something
//! may be due.
//! `TxTable` promises that a transaction has the value that was set last, until it is removed, and that neither `set`, where room was reserved,
//! nor `replace` nor `remove` takes memory. `TxLists` are lists that rise, each changed alone, and only `reserve` and `reserve_each` of them take
//! memory. `TxIndex` is a set of transactions, seen as the list of its members, which rises, and `PartTable` a table of a shard's parts with the
//! index of those that are here, so that nobody has to go over the others; that an index is one of a table is the invariant of whoever keeps
//! both. `Candidates` rise, each once; no call of them but `new`, `reserve` and `reserve_more` takes memory. It stands on the names of `clv_base`.
#![tactic(auto)]

mod candidates;
mod index;
mod key;
mod listing;
mod lists;
mod part_table;
pub mod sorted;
mod table;

pub use candidates::Candidates;
pub use index::TxIndex;
pub use lists::TxLists;
pub use part_table::PartTable;
pub use table::TxTable;
