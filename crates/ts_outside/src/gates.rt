//! The gates of the stages of a chain.
/// Is called where a plugin's stage enters a window and where it leaves it.
///
/// A gate may hold a stage there: a gate of the tests makes two stages meet.
pub trait Gate: Sync {
    /// Before stage `stage` edits a window that is not empty: the position of its first cell, and its number of cells.
    fn enter(&self, stage: usize, start: u64, len: usize);

    /// After stage `stage` has edited the window.
    fn leave(&self, stage: usize);
}

/// The gate that does nothing.
#[derive(Clone, Copy)]
pub struct OpenGate;

impl Gate for OpenGate {
    fn enter(&self, _stage: usize, _start: u64, _len: usize) {}

    fn leave(&self, _stage: usize) {}
}
