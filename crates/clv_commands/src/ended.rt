// How a run of the program ended.

use command_line::Status;
use history_replay::History;

/// How a run of the program ended: its status, and the history where the shards were opened.
#[derive(Drop)]
pub struct Ended {
    pub status: Status,
    pub history: Option<History>,
}
