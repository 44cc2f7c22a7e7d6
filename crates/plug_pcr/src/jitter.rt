//! How far a PCR is from the one expected at the bit rate.
ghost use Rattle.std.specs.Prelude.{◌≡◌, ◌<◌, ◌≤◌};
ghost use Rattle.plug_pcr.specs.ClockJitter.{jitter_of};
ghost use Rattle.plug_clock.specs.declared.limits.TheConstants.{CLOCK_PERIOD as PERIOD};

use plug_clock::{CLOCK_PERIOD, PACKET_UNITS};

/// The jitter of the PCR `clock`, `packets` packets after the PCR `before`, in units of the 27 MHz clock.
pub fn jitter(bitrate: u64, packets: u64, before: u64, clock: u64) -> u64
    requires { 1 ≤ bitrate }
    ensures is { result ≡ jitter_of bitrate packets before clock }
    ensures small { result < PERIOD }
{
    let period = u128::from(CLOCK_PERIOD);
    let taken = u128::from(packets) * u128::from(PACKET_UNITS) / u128::from(bitrate);
    let wanted = (u128::from(before) + taken) % period;
    let behind = (u128::from(clock) + (period - wanted)) % period;
    if behind <= period - behind {
        behind as u64
    } else {
        (period - behind) as u64
    }
}
