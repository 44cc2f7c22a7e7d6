//! A table that changed without a new version.

/// A section of a table came with other contents than the section of its number before it, under the same version and
/// last number. It explains a run, and no rule rests on it.
#[derive(Clone, Copy, PartialEq, Eq)]
pub struct ChangedTable {
    /// table_id.
    pub table_id: u8,
    /// The position of the packet with which the section came.
    pub at: u64,
}
