//! The greatest numbers that options of `tables` take, besides PIDs.

/// The greatest table_id.
pub const LAST_TABLE_ID: u64 = 255;
