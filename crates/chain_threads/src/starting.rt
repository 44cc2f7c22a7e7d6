//! Whether threads can be started.
use std::marker::Sync;
use std::sync::Wait;
use std::sync::atomic::AtomicU64;
use std::sync::atomic::Ordering::SeqCst;
use std::thread;
use std::thread::Threads;

/// Threads wait here until it is opened.
#[derive(Drop)]
struct Latch {
    opened: AtomicU64,
}

impl Latch {
    fn wait<R: Wait>(&self, rt: &R) {
        for _ in rt.forever() {
            if self.opened.load(SeqCst) != 0 {
                return;
            }
            self.opened.park(rt, 0);
        }
    }

    fn open(&self) {
        self.opened.store(1, SeqCst);
        self.opened.wake_all();
    }
}

/// Whether so many threads can run at once beside the caller's. They are started for this alone, have no work, and end
/// before this returns.
pub(crate) fn can_start<R: Threads + Wait + Sync>(rt: &R, threads: usize) -> bool {
    let latch = Latch {
        opened: AtomicU64::new(0),
    };
    let shared = &latch;
    thread::scope(thread::scope_env(), rt, |scope| {
        for _ in 0..threads {
            if scope.spawn(move || shared.wait(rt)).is_err() {
                shared.open();
                return false;
            }
        }
        shared.open();
        true
    })
}
