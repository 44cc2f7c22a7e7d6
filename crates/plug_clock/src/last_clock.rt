//! The last PCR on a PID.

/// The last PCR on a PID.
#[derive(Clone, Copy, PartialEq, Eq)]
pub struct LastClock {
    /// The position of its packet.
    pub at: u64,
    /// Its value, in units of the 27 MHz clock.
    pub clock: u64,
}
