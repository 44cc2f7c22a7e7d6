//! A bit rate that was measured.

/// The bit rate up to a packet with which an interval has passed.
#[derive(Clone, Copy, PartialEq, Eq)]
pub struct Measure {
    /// The position of the packet.
    pub at: u64,
    /// The stream's clock with it, in whole milliseconds.
    pub time: u64,
    /// The bit rate of the packets before it since the last measurement, in bits per second.
    pub bitrate: u128,
}
