// How long one waits while a shard is down that it doesn't need.
use crate::parts::is_own;
use cluster_turns::Shards;
use machine_calls::Machine;
use std::sync::Wait;
use std::sync::atomic::AtomicU64;
use std::time::Duration;

// So many naps of a millisecond at most: what it waits for may need the shard that is down, and then nobody ends it.
const MOST: u32 = 2_000;

// So many where a request was left standing, as that may well be what it waits for.
const MOST_WHERE_LEFT: u32 = 100;

// How often one has napped so far.
#[derive(Drop)]
pub(crate) struct Patience {
    naps: u32,
}

impl Patience {
    pub(crate) fn new() -> Self {
        Patience { naps: 0 }
    }

    // A shard was found down. Where it isn't one's own, and patience is left, it naps; tells whether it did.
    pub(crate) fn bears<M: Machine, R: Wait>(
        &mut self,
        rt: &R,
        shards: &Shards<M>,
        own: &[bool; 16],
        down: u32,
    ) -> bool {
        let most = if shards.has_left() {
            MOST_WHERE_LEFT
        } else {
            MOST
        };
        if is_own(own, down) || self.naps >= most {
            return false;
        }
        self.naps += 1;
        AtomicU64::new(0).park_timeout(rt, 0, Duration::from_millis(1));
        true
    }
}
