//! Intervals and bit rates, by the clock.
ghost use Rattle.std.specs.Prelude.{◌≡◌, ◌≤◌};
ghost use Rattle.plug_rate.specs.Rates;
ghost use Rattle.plug_rate.specs.declared.limits.TheConstants.{MOST_INTERVAL as LONGEST};

use crate::limits::MILLISECOND;
use plug_clock::PACKET_UNITS;

/// Whether from one time to another a multiple of the interval, which is in milliseconds, has passed.
pub fn has_passed(interval: u64, before: u64, after: u64) -> bool
    requires some { 1 ≤ interval }
    requires most { interval ≤ LONGEST }
    ensures { result ≡ Rates.has_passed interval before after }
{
    let units = interval * MILLISECOND;
    before / units < after / units
}

/// The bit rate of so many packets in so many units of the clock, in bits per second, rounded to the nearest, half up.
pub fn rate_of(packets: u64, units: u64) -> u128
    requires { 1 ≤ units }
    ensures { result ≡ Rates.rate_of packets units }
{
    let bits = u128::from(packets) * u128::from(PACKET_UNITS);
    (2 * bits + u128::from(units)) / (2 * u128::from(units))
}
