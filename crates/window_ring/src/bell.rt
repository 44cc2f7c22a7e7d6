//! The bell that wakes a stage.
//!
//! Each stage has one, and sleeps at once. With one bell for all, each visit would wake every thread; waiting for the
//! bell with `yield_now` before the sleep gained next to nothing on a machine without other work, and was many times
//! slower on one with much of it.

use std::sync::Wait;
use std::sync::atomic::AtomicU64;
use std::sync::atomic::Ordering::SeqCst;

/// Rings when there may be news for a stage. It changes no list, and no clause depends on it.
#[derive(Drop)]
pub(crate) struct Bell {
    // How often it rang.
    rung: AtomicU64,
    // How many wait for it, so that no wake-up is asked for where nobody sleeps.
    sleepers: AtomicU64,
}

impl Bell {
    pub(crate) fn new() -> Bell {
        Bell {
            rung: AtomicU64::new(0),
            sleepers: AtomicU64::new(0),
        }
    }

    /// How often it rang.
    pub(crate) fn heard(&self) -> u64 {
        self.rung.load(SeqCst)
    }

    /// Rings, and wakes all that wait.
    pub(crate) fn ring(&self) {
        self.rung.fetch_add(1, SeqCst);
        if self.sleepers.load(SeqCst) > 0 {
            self.rung.wake_all();
        }
    }

    /// Sleeps while it has rung `heard` times; spurious wake-ups are possible.
    pub(crate) fn wait<R: Wait>(&self, rt: &R, heard: u64) {
        self.sleepers.fetch_add(1, SeqCst);
        self.rung.park(rt, (heard & 0xFFFF_FFFF) as u32);
        self.sleepers.fetch_sub(1, SeqCst);
    }
}
