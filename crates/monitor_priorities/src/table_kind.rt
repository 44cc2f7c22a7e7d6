//! A table that comes on a PID of its own.
use monitor_lines::{Indicator, Missing};

/// A table that comes on a PID of its own, as the PAT on PID 0.
#[derive(Clone, Copy, PartialEq, Eq)]
pub struct TableKind {
    /// The PID.
    pub pid: u16,
    /// The table_id.
    pub table_id: u8,
    /// The indicator of its errors.
    pub indicator: Indicator,
    /// What is missing where it does not come.
    pub missing: Missing,
}
