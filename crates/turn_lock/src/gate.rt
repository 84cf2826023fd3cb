// The gate before a log's batches.
use std::sync::atomic::{AtomicU64, Ordering};
use std::sync::{Mutex, MutexGuard, Wait};
use std::time::Duration;

// How often a writer naps at most until others sleep, and how many microseconds each time.
const NAPS: u32 = 10;

const NAP: u64 = 100;

// How many microseconds the first that sleeps on a batch sleeps each time, until it has told that the batch takes long.
const WATCH: u64 = 200;

/// The gate before a log's batches. Threads share it.
#[derive(Drop)]
pub struct BatchGate {
    // Held by who writes.
    writing: Mutex<()>,
    // How many batches were written.
    written: AtomicU64,
    // How many have begun to sleep since the last one was.
    asleep: AtomicU64,
    // How many slept on that one.
    slept: AtomicU64,
    // The number of the batch that left last, from 1, and of the one that was last seen to take long.
    left: AtomicU64,
    slow: AtomicU64,
}

/// The right to write the next batch, until it is dropped; then all that sleep go on.
pub struct Writer<'a> {
    gate: &'a BatchGate,
    guard: MutexGuard<'a, ()>,
}

/// A batch that another writes.
#[derive(Clone, Copy)]
pub struct Batch {
    written: u64,
}

// The half of a word that a sleeper tells, so that it doesn't sleep where the word has changed.
fn low(word: u64) -> u32 {
    (word % (1 << 32)) as u32
}

impl BatchGate {
    /// A gate of a log of which nobody writes a batch.
    pub const fn new() -> BatchGate {
        BatchGate {
            writing: Mutex::new(()),
            written: AtomicU64::new(0),
            asleep: AtomicU64::new(0),
            slept: AtomicU64::new(0),
            left: AtomicU64::new(0),
            slow: AtomicU64::new(0),
        }
    }

    /// The right to write the next batch, or the batch that another writes.
    pub fn try_write(&self) -> Result<Writer<'_>, Batch> {
        let written = self.written.load(Ordering::SeqCst);
        match self.writing.try_lock() {
            Some(guard) => Ok(Writer { gate: self, guard }),
            None => Err(Batch { written }),
        }
    }

    /// Sleeps until a batch that another writes is written. It may also return for no reason.
    pub fn sleep<R: Wait>(&self, rt: &R, batch: Batch) {
        if self.written.load(Ordering::SeqCst) != batch.written {
            return;
        }
        let before = self.asleep.fetch_add(1, Ordering::SeqCst);
        if self.slept.load(Ordering::SeqCst) <= before.saturating_add(1) {
            self.asleep.wake_all();
        }
        if before == 0 {
            self.watch(rt, batch);
        }
        self.written.park(rt, low(batch.written));
    }

    // Sleeps for a little at a time, and notes where two times pass while the batch is on its way.
    fn watch<R: Wait>(&self, rt: &R, batch: Batch) {
        let nap = Duration::from_micros(WATCH);
        let number = batch.written.wrapping_add(1);
        let mut seen: u32 = 0;
        for _ in rt.forever() {
            self.written.park_timeout(rt, low(batch.written), nap);
            if self.written.load(Ordering::SeqCst) != batch.written {
                return;
            }
            if self.left.load(Ordering::SeqCst) == number {
                seen = seen.wrapping_add(1);
            }
            if seen == 2 {
                self.slow.store(number, Ordering::SeqCst);
                return;
            }
        }
    }
}

impl Writer<'_> {
    /// Where the batch before took long, naps until as many sleep as slept on it, for some 1,000 microseconds at most.
    pub fn let_others_in<R: Wait>(&self, rt: &R) {
        let last = self.gate.left.load(Ordering::SeqCst);
        if last != 0 && self.gate.slow.load(Ordering::SeqCst) == last {
            self.nap(rt);
        }
        let number = self.gate.written.load(Ordering::SeqCst).wrapping_add(1);
        self.gate.left.store(number, Ordering::SeqCst);
    }

    fn nap<R: Wait>(&self, rt: &R) {
        let nap = Duration::from_micros(NAP);
        for _ in 0..NAPS {
            let asleep = self.gate.asleep.load(Ordering::SeqCst);
            if self.gate.slept.load(Ordering::SeqCst) <= asleep {
                return;
            }
            self.gate.asleep.park_timeout(rt, low(asleep), nap);
        }
    }
}

impl Drop for Writer<'_> {
    fn drop(self) {
        let Writer { gate, guard } = self;
        let asleep = gate.asleep.swap(0, Ordering::SeqCst);
        gate.slept.store(asleep, Ordering::SeqCst);
        // Who finds the guard taken has read the count before: it must not rise while the guard is held, or nobody would wake that one.
        drop(guard);
        gate.written.fetch_add(1, Ordering::SeqCst);
        gate.written.wake_all();
    }
}
