//! A key of a row.
use monitor_keys::Key;

/// The key of a number that the tables in force name.
#[derive(Clone, Copy)]
pub struct RowKey {
    /// The number.
    pub number: u32,
    /// What is kept of its key.
    pub key: Key,
}
