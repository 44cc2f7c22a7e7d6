//! The result of a run: the cut and its cause.

use chain_model::Cause;

/// Where a chain was cut, and why.
#[derive(Debug, Clone, Copy, PartialEq, Eq)]
pub struct Closed {
    /// How many positions count, those of dropped cells too.
    pub cut: u64,
    pub cause: Cause,
}
