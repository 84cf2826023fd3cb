// What wakes who sleeps. No proof rests on it.
use std::sync::Wait;
use std::sync::atomic::{AtomicU64, Ordering};
use std::time::Duration;

/// A bell that one thread sleeps on, and others ring.
#[derive(Drop)]
pub struct Bell {
    rung: AtomicU64,
    // Not 0 while its thread sleeps, or is about to, and nobody rang since: so many may ring, and one alone wakes it.
    awaited: AtomicU64,
}

impl Bell {
    pub fn new() -> Bell {
        Bell {
            rung: AtomicU64::new(0),
            awaited: AtomicU64::new(0),
        }
    }

    /// How often it was rung, as far as a sleeper tells it.
    pub fn heard(&self) -> u32 {
        (self.rung.load(Ordering::SeqCst) % (1 << 32)) as u32
    }

    /// Whoever waits is about to sleep: it looks once more for what it waits for, and then sleeps.
    pub fn lie_down(&self) {
        self.awaited.store(1, Ordering::SeqCst);
    }

    /// Whoever lay down goes on.
    pub fn rise(&self) {
        self.awaited.store(0, Ordering::SeqCst);
    }

    /// Sleeps until it is rung past this; it may also return for no reason. Where it was rung since its thread lay down this one lies down again, and is to look
    /// once more.
    pub fn sleep<R: Wait>(&self, rt: &R, heard: u32) {
        if self.awaited.load(Ordering::SeqCst) == 0 {
            self.lie_down();
        } else {
            self.rung.park(rt, heard);
        }
    }

    /// Sleeps until it is rung past this, for so many milliseconds at most.
    pub fn nap<R: Wait>(&self, rt: &R, heard: u32, millis: u64) {
        self.rung
            .park_timeout(rt, heard, Duration::from_millis(millis));
    }

    /// Wakes who sleeps on it. What it waits for is there before.
    pub fn ring(&self) {
        if self.awaited.load(Ordering::SeqCst) != 0 && self.awaited.swap(0, Ordering::SeqCst) != 0 {
            self.rung.fetch_add(1, Ordering::SeqCst);
            self.rung.wake_all();
        }
    }
}
