//! The limit of a PID to which no table refers.
use plug_clock::CLOCK_RATE;

/// How long packets may come on a PID to which no table refers, in units of the 27 MHz clock: half a second (ETSI TR 101 290,
/// 5.2.3, 3.4).
pub const LONGEST_WAIT: u64 = CLOCK_RATE / 2;
