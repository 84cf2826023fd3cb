// What a history tells of an act.

use crate::done::Done;

/// An answered operation, or a going back, with its number.
#[derive(Drop)]
pub struct Told {
    pub nth: u64,
    pub done: Done,
}
