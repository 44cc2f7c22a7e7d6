//! A gate that records the windows of plugins.
use std::alloc::{AllocError, Global};
use std::ops::Range;
use std::sync::atomic::{AtomicU64, Ordering};
use ts_outside::Gate;

/// How many windows are kept of one plugin.
pub(crate) const ROOM: usize = 40;

/// The first cell of a window, and how many cells it has.
#[derive(Drop)]
pub(crate) struct Window {
    start: AtomicU64,
    len: AtomicU64,
}

/// The windows that a plugin's stage entered and left, in order.
#[derive(Drop)]
pub(crate) struct Windows {
    entered: AtomicU64,
    left: AtomicU64,
    kept: Vec<Window>,
}

impl Windows {
    fn new(alloc: Global) -> Result<Windows, AllocError> {
        let mut kept = Vec::new(alloc);
        for _ in 0..ROOM {
            kept.push(Window {
                start: AtomicU64::new(0),
                len: AtomicU64::new(0),
            })?;
        }
        Ok(Windows {
            entered: AtomicU64::new(0),
            left: AtomicU64::new(0),
            kept,
        })
    }

    /// Where the window of that number begins and ends, from 0 on in order; `None` where so many were not entered.
    pub(crate) fn window(&self, n: usize) -> Option<Range<u64>> {
        if self.entered.load(Ordering::SeqCst) <= n as u64 {
            return None;
        }
        let window = self.kept.get(n)?;
        let start = window.start.load(Ordering::SeqCst);
        let len = window.len.load(Ordering::SeqCst);
        Some(start..start.wrapping_add(len))
    }

    /// Whether the first window begins at 0, and each other one where the one before it ends.
    pub(crate) fn is_one_row(&self) -> bool {
        let mut end = 0;
        for n in 0..ROOM {
            if let Some(window) = self.window(n) {
                if window.start != end {
                    return false;
                }
                end = window.end;
            }
        }
        true
    }

    /// Whether there was room for all windows, and each was left.
    pub(crate) fn is_whole(&self) -> bool {
        let entered = self.entered.load(Ordering::SeqCst);
        entered <= ROOM as u64 && entered == self.left.load(Ordering::SeqCst)
    }
}

/// A gate that records the windows of so many plugins.
#[derive(Drop)]
pub(crate) struct KeepingGate {
    plugins: Vec<Windows>,
}

impl KeepingGate {
    pub(crate) fn new(alloc: Global, plugins: usize) -> Result<KeepingGate, AllocError> {
        let mut all = Vec::new(alloc);
        for _ in 0..plugins {
            all.push(Windows::new(alloc)?)?;
        }
        Ok(KeepingGate { plugins: all })
    }

    /// The windows of each plugin, in the order of the chain.
    pub(crate) fn plugins(&self) -> &[Windows] {
        self.plugins.as_slice()
    }

    /// The windows of the stage of this number; the plugins are the stages from 1 on.
    fn of_stage(&self, stage: usize) -> Option<&Windows> {
        self.plugins.get(stage.checked_sub(1)?)
    }
}

impl Gate for KeepingGate {
    fn enter(&self, stage: usize, start: u64, len: usize) {
        if let Some(windows) = self.of_stage(stage) {
            let n = windows.entered.fetch_add(1, Ordering::SeqCst);
            if let Some(window) = windows.kept.get(n as usize) {
                window.start.store(start, Ordering::SeqCst);
                window.len.store(len as u64, Ordering::SeqCst);
            }
        }
    }

    fn leave(&self, stage: usize) {
        if let Some(windows) = self.of_stage(stage) {
            windows.left.fetch_add(1, Ordering::SeqCst);
        }
    }
}
