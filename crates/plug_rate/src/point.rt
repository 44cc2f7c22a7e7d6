//! Where a measurement begins.

/// A packet from which a bit rate is measured: that of the first PCR, or one with which an interval has passed.
#[derive(Clone, Copy, PartialEq, Eq)]
pub struct Point {
    /// The position of the packet.
    pub at: u64,
    /// The stream's clock with it, in units of 27 MHz.
    pub time: u64,
}
