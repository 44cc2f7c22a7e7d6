//! The limits of the options of `monitor`, and its unit of time.
use plug_clock::CLOCK_RATE;

/// Units of the 27 MHz clock in a millisecond.
pub const MILLISECOND: u64 = CLOCK_RATE / 1000;

/// The greatest priority (ETSI TR 101 290, 5.2).
pub const MOST_PRIORITY: u64 = 3;

/// The priority where none is given.
pub const DEFAULT_PRIORITY: u64 = 2;

/// The greatest bit rate, in bits per second.
pub const MOST_BITRATE: u64 = 10_000_000_000;

/// The longest time that a PID of a service may be without a packet, in milliseconds: an hour.
pub const MOST_PID_GAP: u64 = 3_600_000;

/// That time where none is given.
pub const DEFAULT_PID_GAP: u64 = 5000;
