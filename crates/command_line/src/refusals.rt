// The statuses of what is refused before shards are opened.

ghost use Rattle.std.specs.Prelude.{◌≡◌};
ghost use Rattle.command_line.specs.Refusals.{of_words, of_source, of_script, of_making, of_opening};

use crate::WordsError;
use crate::status::Status;
use cluster_opening::{MakeError, OpenError};
use io_model::ReadError;
use script_lang::ScriptError;

impl From<WordsError> for Status {
    ghost from_gives = { λ error status. status ≡ of_words error };

    fn from(error: WordsError) -> Self {
        match error {
            WordsError::Usage => Status::Usage,
            WordsError::Memory => Status::Memory,
        }
    }
}

impl From<ReadError> for Status {
    ghost from_gives = { λ error status. status ≡ of_source error };

    fn from(error: ReadError) -> Self {
        match error {
            ReadError::Failed => Status::ReadFault,
            ReadError::TooLong => Status::Script { line: 0 },
            ReadError::Memory => Status::Memory,
        }
    }
}

impl From<ScriptError> for Status {
    ghost from_gives = { λ error status. status ≡ of_script error };

    fn from(error: ScriptError) -> Self {
        match error {
            ScriptError::Refused { line } => Status::Script { line },
            ScriptError::Memory => Status::Memory,
        }
    }
}

impl From<MakeError> for Status {
    ghost from_gives = { λ error status. status ≡ of_making error };

    fn from(error: MakeError) -> Self {
        match error {
            MakeError::Exists { shard, len } => Status::Exists { shard, len },
            MakeError::Failed { shard } => Status::DiskFault { shard },
            MakeError::Memory => Status::Memory,
        }
    }
}

impl From<OpenError> for Status {
    ghost from_gives = { λ error status. status ≡ of_opening error };

    fn from(error: OpenError) -> Self {
        match error {
            OpenError::Failed { shard } => Status::DiskFault { shard },
            OpenError::NotLog { shard, at } => Status::NotLog { shard, at },
            OpenError::Apart { tx } => Status::Apart { tx },
            OpenError::Worn { at } => Status::Worn { at },
            OpenError::Memory => Status::Memory,
        }
    }
}
