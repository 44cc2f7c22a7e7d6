//! Two reads that wait for each other.
use std::sync::atomic::AtomicBool;
use std::sync::atomic::Ordering::SeqCst;
use std::thread::yield_now;

/// How many turns a read waits at most.
const TURNS: u32 = 50_000_000;

/// How many turns a read waits before it yields the processor.
const SPINS: u32 = 64;

/// The second read of the first input waits until a given read of the second input has begun, and that one until the
/// first one has: if inputs are read one after another they never meet.
#[derive(Drop)]
pub(crate) struct Meeting {
    /// The number of the second input's read, from 1 on.
    of_second: u64,
    first_came: AtomicBool,
    second_came: AtomicBool,
    was_given_up: AtomicBool,
}

impl Meeting {
    /// The second read of the first input meets this one of the second input.
    pub(crate) fn with_read(number: u64) -> Meeting {
        Meeting {
            of_second: number,
            first_came: AtomicBool::new(false),
            second_came: AtomicBool::new(false),
            was_given_up: AtomicBool::new(false),
        }
    }

    /// To be called when a read of an input begins; inputs and reads are counted from 1.
    pub(crate) fn begin(&self, input: u64, read: u64) {
        if input == 1 && read == 2 {
            self.meet(&self.first_came, &self.second_came);
        }
        if input == 2 && read == self.of_second {
            self.meet(&self.second_came, &self.first_came);
        }
    }

    /// One of the two has begun, and waits for the other one.
    fn meet(&self, one: &AtomicBool, other: &AtomicBool) {
        one.store(true, SeqCst);
        if !comes(other) {
            self.was_given_up.store(true, SeqCst);
        }
    }

    /// Whether both began, each before the other one's turns were used up.
    pub(crate) fn have_met(&self) -> bool {
        let came = self.first_came.load(SeqCst) && self.second_came.load(SeqCst);
        came && !self.was_given_up.load(SeqCst)
    }
}

/// Waits until the other read has begun, and returns whether it did before the turns were used up.
fn comes(other: &AtomicBool) -> bool {
    for turn in 0..TURNS {
        if other.load(SeqCst) {
            return true;
        }
        if turn % SPINS == 0 {
            yield_now();
        }
    }
    false
}
