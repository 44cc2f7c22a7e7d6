//! A gap of a key of a row.
use monitor_keys::Gap;

/// A gap of the key of a number that is too long (ETSI TR 101 290, 5.2).
#[derive(Clone, Copy, PartialEq, Eq)]
pub struct RowGap {
    /// The number of the key in its row.
    pub number: u32,
    /// The gap.
    pub gap: Gap,
}
