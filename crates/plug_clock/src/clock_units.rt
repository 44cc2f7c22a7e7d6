//! Units of the clock between two PCRs.
ghost use Rattle.std.specs.Prelude.{◌≡◌, ◌<◌};
ghost use Rattle.plug_clock.specs.ClockUnits;
ghost use Rattle.plug_clock.specs.declared.limits.TheConstants.{CLOCK_PERIOD as PERIOD};

use crate::limits::CLOCK_PERIOD;

/// The units of the clock from one PCR to another, modulo its period.
pub fn units_after(before: u64, clock: u64) -> u64
    ensures is { result ≡ ClockUnits.units_after before clock }
    ensures range { result < PERIOD }
{
    let period = u128::from(CLOCK_PERIOD);
    ((u128::from(clock) + (period - u128::from(before) % period)) % period) as u64
}
