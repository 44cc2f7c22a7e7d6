//! The counts of a PID.

/// How many packets of each kind a PID has.
#[derive(Clone, Copy, PartialEq, Eq)]
pub struct PidNumbers {
    /// All of them.
    pub packets: u64,
    /// Those that are scrambled.
    pub scrambled: u64,
    /// Those whose continuity counter is a fault.
    pub faults: u64,
}
