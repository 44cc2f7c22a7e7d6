//! A gap that is too long.
use plug_clock::CLOCK_RATE;

/// Units of the 27 MHz clock in a millisecond.
const MILLISECOND_UNITS: u128 = CLOCK_RATE as u128 / 1000;

/// A gap between two occurrences of a key, or since its last one, that is longer than its limit (ETSI TR 101 290, 5.2).
#[derive(Clone, Copy, PartialEq, Eq)]
pub struct Gap {
    /// The position of the packet with which it ended; where it lasts, of the PCR with which it passed the limit.
    pub at: u64,
    /// How long it was up to there, in units of the 27 MHz clock.
    pub units: u128,
}

impl Gap {
    ghost use Rattle.std.specs.Prelude.{◌≡◌};
    ghost use Rattle.plug_clock.specs.StreamClock.{milliseconds_of};

    /// How long it was, in whole milliseconds.
    pub fn milliseconds(&self) -> u128
        ensures { result ≡ milliseconds_of self.now.units }
    {
        self.units / MILLISECOND_UNITS
    }
}
