//! A gate at which two stages have to meet: each is held inside a window until the other one is inside one.
use std::sync::atomic::{AtomicBool, AtomicU64, Ordering};
use std::thread::yield_now;
use ts_outside::Gate;

/// How many turns a stage waits at most.
const TURNS: u32 = 50_000_000;

/// How many turns a stage waits before it lets others go first.
const SPINS: u32 = 64;

/// One of the two stages.
#[derive(Drop)]
struct Guest {
    /// The stage's number.
    stage: usize,
    /// The window in which it is held, from 1 on.
    held_in: u64,
    entered: AtomicU64,
    /// It has been inside that window.
    is_there: AtomicBool,
    /// It was held there until the other one came.
    has_met: AtomicBool,
}

impl Guest {
    fn new(stage: usize, held_in: u64) -> Guest {
        Guest {
            stage,
            held_in,
            entered: AtomicU64::new(0),
            is_there: AtomicBool::new(false),
            has_met: AtomicBool::new(false),
        }
    }

    /// Counts a window; in the one where it is held it says so, and waits for the other one.
    fn enter(&self, other: &Guest) {
        let before = self.entered.fetch_add(1, Ordering::SeqCst);
        if before.wrapping_add(1) != self.held_in {
            return;
        }
        self.is_there.store(true, Ordering::SeqCst);
        if other.comes() {
            self.has_met.store(true, Ordering::SeqCst);
        }
    }

    /// Waits until this stage is there. Returns whether it came before the turns ran out.
    fn comes(&self) -> bool {
        for turn in 0..TURNS {
            if self.is_there.load(Ordering::SeqCst) {
                return true;
            }
            if turn % SPINS == 0 {
                yield_now();
            }
        }
        false
    }
}

/// A gate that holds a stage inside its second window until one after it is inside its first, and that one inside its
/// first until the other is inside its second. In one thread neither can be inside while the other one enters.
#[derive(Drop)]
pub(crate) struct MeetingGate {
    first: Guest,
    second: Guest,
}

impl MeetingGate {
    /// For a stage, and one that stands somewhere after it.
    pub(crate) fn between(stage: usize, behind: usize) -> MeetingGate {
        MeetingGate {
            first: Guest::new(stage, 2),
            second: Guest::new(behind, 1),
        }
    }

    /// Whether each was held until the other one was inside.
    pub(crate) fn have_met(&self) -> bool {
        self.first.has_met.load(Ordering::SeqCst) && self.second.has_met.load(Ordering::SeqCst)
    }
}

impl Gate for MeetingGate {
    fn enter(&self, stage: usize, _start: u64, _len: usize) {
        if stage == self.first.stage {
            self.first.enter(&self.second);
        }
        if stage == self.second.stage {
            self.second.enter(&self.first);
        }
    }

    fn leave(&self, _stage: usize) {}
}
