//! Why a PMT names a PID.

/// Why a PMT names a PID that is watched.
#[derive(Clone, Copy, PartialEq, Eq)]
pub enum PidKind {
    /// It is that of a component of sound or picture: packets are to come (ETSI TR 101 290, 5.2.1, 1.6).
    Component,
    /// It is the PCR_PID: PCRs are to come (5.2.2, 2.3).
    Clock,
}
