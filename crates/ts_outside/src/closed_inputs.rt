//! The sources that a desk in memory closed.
/// A source that a desk closed.
#[derive(Clone, Copy, PartialEq, Eq)]
pub struct ClosedInput {
    /// The number of bytes that it had still to come.
    pub left: usize,
    /// Whether one of its reads had failed.
    pub failed: bool,
}

/// Closed sources, the last one first: each link is made when a source is opened and filled when it is closed.
#[derive(Drop)]
pub(crate) enum ClosedInputs {
    Empty,
    Behind(ClosedInput, Box<ClosedInputs>),
}
