//! What the threads of a run tell one another of their steps. No proof rests on it.
use std::sync::Wait;
use std::sync::atomic::{AtomicBool, AtomicU64, Ordering};
use std::thread;

/// How often a thread looks whether all have started, before it goes on without the others.
const LOOKS_AT_START: u32 = 100_000;

/// How often main looks whether the controller makes turns, before it gives up.
const LOOKS_FOR_TURNS: u32 = 10_000_000;

/// How many of the threads have started, how many turns were begun, which turn was the second of two in a row that changed
/// nothing, and whether the run has ended.
#[derive(Drop)]
pub struct Clock {
    threads: u64,
    started: AtomicU64,
    begun: AtomicU64,
    settled: AtomicU64,
    ended: AtomicBool,
}

impl Clock {
    /// The clock of a run with so many threads.
    pub fn new(threads: u64) -> Clock {
        Clock {
            threads,
            started: AtomicU64::new(0),
            begun: AtomicU64::new(0),
            settled: AtomicU64::new(0),
            ended: AtomicBool::new(false),
        }
    }

    /// Counts a thread in, and waits until all have started. Where one can't start the others go on after a while.
    pub fn start_together(&self) {
        let _before = self.started.fetch_add(1, Ordering::SeqCst);
        for _look in 0..LOOKS_AT_START {
            if self.started.load(Ordering::SeqCst) >= self.threads {
                break;
            }
            thread::yield_now();
        }
    }

    /// The number of the turn that now begins.
    pub fn begin(&self) -> u64 {
        self.begun.fetch_add(1, Ordering::SeqCst).wrapping_add(1)
    }

    /// This turn and the one before it changed nothing.
    pub fn settle(&self, turn: u64) {
        self.settled.store(turn, Ordering::SeqCst);
    }

    /// Waits for the first turn. Answers whether one was begun: where the controller can't start, there is none.
    pub fn has_turns(&self) -> bool {
        for _look in 0..LOOKS_FOR_TURNS {
            if self.begun.load(Ordering::SeqCst) > 0 {
                return true;
            }
            thread::yield_now();
        }
        false
    }

    /// Waits for two turns in a row that begin after this and change nothing.
    pub fn wait_settled(&self, rt: &impl Wait) {
        let from = self.begun.load(Ordering::SeqCst);
        for _ in rt.forever() {
            if self.settled.load(Ordering::SeqCst) >= from.saturating_add(2) {
                break;
            }
            thread::yield_now();
        }
    }

    /// The controller is to stop.
    pub fn end(&self) {
        self.ended.store(true, Ordering::SeqCst);
    }

    pub fn has_ended(&self) -> bool {
        self.ended.load(Ordering::SeqCst)
    }
}
