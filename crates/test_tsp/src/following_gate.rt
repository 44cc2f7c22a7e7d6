//! A gate that checks each window of two stages over one buffer.
use std::sync::atomic::{AtomicU64, Ordering};
use ts_outside::Gate;

/// The windows that a stage entered and left.
#[derive(Drop)]
pub(crate) struct Walker {
    /// Where the last window that it entered ends.
    entered: AtomicU64,
    /// Where the last window that it left ends.
    left: AtomicU64,
    /// How many windows break a rule.
    wrong: AtomicU64,
}

impl Walker {
    fn new() -> Walker {
        Walker {
            entered: AtomicU64::new(0),
            left: AtomicU64::new(0),
            wrong: AtomicU64::new(0),
        }
    }

    /// Enters a window, which has to begin where the last one ended and to end at `most` at most.
    fn enter(&self, start: u64, len: u64, is_within: bool, most: u64) {
        let end = start.saturating_add(len);
        let is_next = start == self.entered.load(Ordering::SeqCst);
        if !(is_next && is_within && end <= most) {
            self.wrong.fetch_add(1, Ordering::SeqCst);
        }
        self.entered.store(end, Ordering::SeqCst);
    }

    fn leave(&self) {
        self.left
            .store(self.entered.load(Ordering::SeqCst), Ordering::SeqCst);
    }

    /// Where the last window that it has left ends.
    pub(crate) fn end(&self) -> u64 {
        self.left.load(Ordering::SeqCst)
    }

    /// How many windows do not begin where the one before ended, cross the end of the buffer, or go too far ahead.
    pub(crate) fn wrong(&self) -> u64 {
        self.wrong.load(Ordering::SeqCst)
    }
}

/// A gate for two stages over a buffer of so many cells. A window begins where the one before it ended, from 0 on, and
/// does not cross the end of the buffer; one of stage 2 ends no later than the last one that stage 1 has left, and one of
/// stage 1 at most a buffer after the last one that stage 2 has left.
#[derive(Drop)]
pub(crate) struct FollowingGate {
    buffer: u64,
    first: Walker,
    second: Walker,
}

impl FollowingGate {
    pub(crate) fn new(buffer: u64) -> FollowingGate {
        FollowingGate {
            buffer,
            first: Walker::new(),
            second: Walker::new(),
        }
    }

    /// Both stages, in the order of the chain.
    pub(crate) fn stages(&self) -> [&Walker; 2] {
        [&self.first, &self.second]
    }

    /// Whether a window lies within the buffer.
    fn is_within(&self, start: u64, len: u64) -> bool {
        match start.checked_rem(self.buffer) {
            Some(slot) => slot.saturating_add(len) <= self.buffer,
            None => false,
        }
    }
}

impl Gate for FollowingGate {
    fn enter(&self, stage: usize, start: u64, len: usize) {
        let len = len as u64;
        let is_within = self.is_within(start, len);
        if stage == 1 {
            let most = self.second.end().saturating_add(self.buffer);
            self.first.enter(start, len, is_within, most);
        }
        if stage == 2 {
            self.second.enter(start, len, is_within, self.first.end());
        }
    }

    fn leave(&self, stage: usize) {
        if stage == 1 {
            self.first.leave();
        }
        if stage == 2 {
            self.second.leave();
        }
    }
}
