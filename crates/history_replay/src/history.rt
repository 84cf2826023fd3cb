// The history of a run, as its shards kept it.

ghost use Rattle.std.specs.Prelude.{◌≡◌, map};

use clv_base::events::Entry;
use clv_base::logs::LogRecord;
use quiet_list::Told;
use std::marker::Model;
use std::snapshot::Snapshot;

/// The journal of each shard, and each shard's log as opening found it, both for contracts alone.
#[derive(Drop)]
pub struct History {
    journals: Vec<Told<Entry>>,
    found: Snapshot<Vec<Vec<LogRecord>>>,
}

impl Model for History {
    ghost use Rattle.std.specs.Prelude.{map};
    ghost use Rattle.history_replay.specs.Entries.{Kept};

    ghost Value = { Kept };

    ghost view = { λ h. record { journals = map (λ j. j.items) h.journals.items; found = map (λ l. l.items) h.found.value.items } };
}

impl History {
    /// The history of these journals and logs, one of each for each shard, from shard 0. Takes no memory.
    pub fn new(journals: Vec<Told<Entry>>, found: Snapshot<Vec<Vec<LogRecord>>>) -> Self
        ensures journals { result.journals ≡ map (λ j. j.items) journals.items }
        ensures found { result.found ≡ map (λ l. l.items) found.value.items }
    {
        History { journals, found }
    }
}
