//! Why a plugin edited nothing.

/// Why a plugin that waits for tables, a service or packets edited nothing. It explains a run, and no rule rests on it.
#[derive(Clone, Copy, PartialEq, Eq)]
pub enum Unedited {
    /// No complete table came on this PID.
    NoTable(u16),
    /// The edit leaves the last tables on this PID as they are.
    SameTables(u16),
    /// No PAT came.
    NoPat,
    /// The last PAT has no entry of this service.
    NoService(u16),
    /// No PMT of this service came.
    NoPmt(u16),
}
