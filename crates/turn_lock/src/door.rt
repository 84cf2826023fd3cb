// The door before the line: one is inside at a time, and others sleep.
use std::sync::Wait;
use std::sync::atomic::{AtomicU64, Ordering};
use std::{hint, thread};

// How often who finds it shut looks again before it sleeps.
const LOOKS: u32 = 200;

// And how often it gives its processor away then.
const YIELDS: u32 = 20;

const OPEN: u64 = 0;

const SHUT: u64 = 1;

// Shut, and one may sleep before it.
const WANTED: u64 = 2;

// For so many turns one stays at most.
const TURNS: u64 = 32;

fn name(who: u32) -> u64 {
    (who as u64).wrapping_add(1)
}

/// The door before a line. No proof rests on it: who is inside is served in the order of tickets all the same.
#[derive(Drop)]
pub(crate) struct Door {
    word: AtomicU64,
    // The number above that of who stays behind it between two turns, 0 for nobody, and how many turns that one has had.
    stayed: AtomicU64,
    turns: AtomicU64,
}

impl Door {
    pub(crate) const fn new() -> Door {
        Door {
            word: AtomicU64::new(OPEN),
            stayed: AtomicU64::new(0),
            turns: AtomicU64::new(0),
        }
    }

    fn try_come_in(&self) -> bool {
        self.word.load(Ordering::SeqCst) == OPEN
            && self
                .word
                .compare_exchange(OPEN, SHUT, Ordering::SeqCst, Ordering::SeqCst)
                .is_ok()
    }

    /// Waits until nobody is inside.
    pub(crate) fn come_in<R: Wait>(&self, rt: &R) {
        for _ in 0..LOOKS {
            if self.try_come_in() {
                return;
            }
            hint::spin_loop();
        }
        for _ in 0..YIELDS {
            if self.try_come_in() {
                return;
            }
            thread::yield_now();
        }
        for _ in rt.forever() {
            if self.word.swap(WANTED, Ordering::SeqCst) == OPEN {
                return;
            }
            self.word.park(rt, WANTED as u32);
        }
    }

    /// Whether this one stayed.
    pub(crate) fn has_stayed(&self, who: u32) -> bool {
        self.stayed.load(Ordering::SeqCst) == name(who)
    }

    /// Gives the place up, unless this one stays and has had few turns.
    pub(crate) fn go_out_unless(&self, who: u32, stays: bool) {
        if stays && self.turns.fetch_add(1, Ordering::SeqCst) < TURNS {
            self.stayed.store(name(who), Ordering::SeqCst);
            return;
        }
        self.turns.store(0, Ordering::SeqCst);
        self.stayed.store(0, Ordering::SeqCst);
        self.go_out();
    }

    /// Gives the place up, and wakes one that sleeps.
    pub(crate) fn go_out(&self) {
        if self.word.swap(OPEN, Ordering::SeqCst) == WANTED {
            self.word.wake_one();
        }
    }
}
