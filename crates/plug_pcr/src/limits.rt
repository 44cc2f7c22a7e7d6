//! The limits and defaults of the options.
use plug_clock::CLOCK_PERIOD;

/// The greatest bit rate, in bits per second.
pub const MOST_BITRATE: u64 = 10_000_000_000;

/// The greatest value of the option for the jitter, in units of the clock.
pub const MOST_JITTER: u64 = CLOCK_PERIOD - 1;

/// The greatest jitter that is no fault by default: a millisecond, in units of the clock.
pub const DEFAULT_JITTER: u64 = 27_000;
