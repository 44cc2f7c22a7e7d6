//! The line at which the threads of all stages meet.
//!
//! They meet at one word, in which who decides first does so for all: the last to come, that all are here, or one that
//! has waited too long, that the wait is given up. A flag "give up" beside a flag "all have begun" would leave a moment
//! in which one thread sees the first and another one the second, and then sleeps for ever.

use std::sync::Wait;
use std::sync::atomic::AtomicU64;
use std::sync::atomic::Ordering::SeqCst;
use std::time::Duration;

/// Not decided yet.
const OPEN: u64 = 0;

/// All have come.
const MET: u64 = 1;

/// The wait was given up.
const GIVEN_UP: u64 = 2;

/// Where the threads of all stages meet before any of them begins.
///
/// A stage may sleep until another one wakes it, so none begins before all have a thread of their own. One word
/// decides, and its first writer: so either every thread learns that all have come, or every one that the wait was given
/// up. No clause depends on it.
#[derive(Drop)]
pub(crate) struct StartLine {
    stages: u64,
    /// How long one of them waits for the others, in milliseconds.
    patience: u64,
    here: AtomicU64,
    decision: AtomicU64,
}

impl StartLine {
    /// For so many stages, each of which waits at most `patience` milliseconds for the others. Where there are none, all have come.
    pub(crate) fn new(stages: usize, patience: u64) -> StartLine {
        StartLine {
            stages: stages as u64,
            patience,
            here: AtomicU64::new(0),
            decision: AtomicU64::new(if stages == 0 { MET } else { OPEN }),
        }
    }

    /// Waits until the threads of all stages have called this or the wait is given up. Returns whether all have.
    pub(crate) fn all_here<R: Wait>(&self, rt: &R) -> bool {
        let before = self.here.fetch_add(1, SeqCst);
        if before.wrapping_add(1) == self.stages {
            self.decide(MET);
        }
        // It returns at once where that is decided.
        self.decision
            .park_timeout(rt, OPEN as u32, Duration::from_millis(self.patience));
        self.decide(GIVEN_UP);
        self.has_met()
    }

    /// Whether all had come before the wait was given up.
    pub(crate) fn has_met(&self) -> bool {
        self.decision.load(SeqCst) == MET
    }

    /// Decides, unless it is decided.
    fn decide(&self, decision: u64) {
        if self
            .decision
            .compare_exchange(OPEN, decision, SeqCst, SeqCst)
            .is_ok()
        {
            self.decision.wake_all();
        }
    }
}
