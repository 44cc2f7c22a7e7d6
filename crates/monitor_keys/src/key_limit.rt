//! The limit of a key.

/// How long a key may be away, and what is told of a longer gap.
#[derive(Clone, Copy, PartialEq, Eq)]
pub struct KeyLimit {
    /// The limit, in units of the 27 MHz clock; a gap as long is no error.
    pub units: u64,
    /// A gap is told a second time, with its whole length, when it ends.
    pub tells_ends: bool,
}
