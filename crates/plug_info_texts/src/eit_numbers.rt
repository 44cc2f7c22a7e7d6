//! The EIT sections of a service.

/// How many EIT sections of the actual transport stream a service has. A number that would pass 64 bits stands still at its
/// end.
#[derive(Clone, Copy, PartialEq, Eq)]
pub struct EitNumbers {
    /// Those of its present and its following event: table_id 0x4E.
    pub present: u64,
    /// Those of its schedule: table_id 0x50 to 0x5F.
    pub schedule: u64,
}
