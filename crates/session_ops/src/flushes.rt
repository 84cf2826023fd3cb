// Which shards of a request a round flushes.
use crate::parts::Met;
use std::array;

// Another walker's batch that was on its way when the request came, and the one behind it.
const BATCHES: u8 = 2;

// After so many rounds all are flushed again: a part may have waited for those before it.
const ROUNDS: u32 = 16;

// The home of a request, and its other shards until these have written what they had when the request came: after a flush of this walker, or two batches of others.
#[derive(Drop)]
pub(crate) struct Flushes {
    pub(crate) others: [bool; 16],
    pub(crate) home: [bool; 16],
    touched: [bool; 16],
    batches: u8,
    rounds: u32,
}

fn without(touched: &[bool; 16], home: u32) -> [bool; 16] {
    array::from_fn(|shard| touched[shard] && shard as u32 != home)
}

impl Flushes {
    pub(crate) fn new(touched: [bool; 16], home: u32) -> Self {
        Flushes {
            others: without(&touched, home),
            home: array::from_fn(|shard| shard as u32 == home),
            touched,
            batches: BATCHES,
            rounds: 0,
        }
    }

    pub(crate) fn has_others(&self) -> bool {
        self.others.iter().any(|is| *is)
    }

    // A round with this home has met so much.
    pub(crate) fn pass(&mut self, home: u32, met: &Met) {
        self.rounds = self.rounds.wrapping_add(1);
        if self.rounds % ROUNDS == 0 {
            self.others = without(&self.touched, home);
            self.batches = BATCHES;
            return;
        }
        self.batches = match met.away {
            Some((shard, _)) if shard != home => self.batches.saturating_sub(1),
            _ => 0,
        };
        if self.batches == 0 {
            self.others = [false; 16];
        }
    }
}
