// What a run is to do.

use script_lang::Session;
use script_runs::Start;

/// What a run is to do: these sessions of a script, each transaction in at most so many tries, or without a number until it is done. They start so, and their
/// books keep their rows, as a report needs them, or their counts alone.
#[derive(Clone, Copy)]
pub struct Plan<'a> {
    pub sessions: &'a [Session],
    pub most: Option<u32>,
    pub start: Start,
    pub keeps_rows: bool,
}
