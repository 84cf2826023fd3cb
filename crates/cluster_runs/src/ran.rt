// What a run leaves.

use command_line::Status;
use history_replay::History;
use session_books::books::Book;

/// A run that opened its shards, and closed them.
#[derive(Drop)]
pub struct Ran<S> {
    /// What all shards did, from the logs that were found.
    pub history: History,
    /// The book of each session, in their order, from which their report is made; none where none was begun.
    pub books: Vec<Book>,
    /// The store of each shard, as it was last.
    pub maps: Vec<S>,
    pub status: Status,
}
