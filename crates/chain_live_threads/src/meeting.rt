//! Where the input's thread and that of the other stages meet before they begin.
//!
//! One word decides, and its first writer: that both run, or that the wait is given up. So the second thread never sleeps for an
//! input that nobody drives.

use std::sync::Wait;
use std::sync::atomic::AtomicU64;
use std::sync::atomic::Ordering::SeqCst;
use std::time::Duration;

/// Not decided yet.
const OPEN: u64 = 0;

/// Both run.
const MET: u64 = 1;

/// The wait was given up.
const GIVEN_UP: u64 = 2;

/// How long the input's thread is waited for, in milliseconds.
const PATIENCE: u64 = 5000;

/// The word that decides whether both threads run. No clause depends on it.
#[derive(Drop)]
pub(crate) struct Meeting {
    decision: AtomicU64,
}

impl Meeting {
    /// Nothing is decided.
    pub(crate) fn new() -> Meeting {
        Meeting {
            decision: AtomicU64::new(OPEN),
        }
    }

    /// The input's thread has come. Returns whether both run.
    pub(crate) fn comes(&self) -> bool {
        self.decide(MET);
        self.has_met()
    }

    /// Waits for the input's thread. Returns whether both run.
    pub(crate) fn waits<R: Wait>(&self, rt: &R) -> bool {
        // It returns at once where that is decided.
        self.decision
            .park_timeout(rt, OPEN as u32, Duration::from_millis(PATIENCE));
        self.decide(GIVEN_UP);
        self.has_met()
    }

    fn has_met(&self) -> bool {
        self.decision.load(SeqCst) == MET
    }

    /// Decides, unless it is decided.
    fn decide(&self, decision: u64) {
        if self
            .decision
            .compare_exchange(OPEN, decision, SeqCst, SeqCst)
            .is_ok()
        {
            self.decision.wake_all();
        }
    }
}
