//! The clock of a PID, from its first PCR to its last.
ghost use Rattle.std.specs.Prelude.{◌≡◌, Some, None, if◌then◌else◌};
ghost use Rattle.plug_info_state.specs.PcrRate.{has_part, rate_over};
ghost use Rattle.plug_info_state.specs.ClockSpans.{fits, span_with, way_parts};

use plug_clock::{PACKET_UNITS, units_after};
use plug_info_texts::rounded;
use plug_pcr::MOST_BITRATE;

/// By how much a PCR may be ahead of the one before it and still have a part in the bit rate, in units of the 27 MHz
/// clock: a second. Streams that keep to ISO/IEC 13818-1, 2.7.2, have ten PCRs in it.
pub const LONGEST_SPAN: u64 = 27_000_000;

/// A PCR and its position.
#[derive(Clone, Copy, PartialEq, Eq)]
pub struct MetClock {
    /// The position of its packet.
    pub at: u64,
    /// Its value, in units of the 27 MHz clock.
    pub clock: u64,
}

/// What is kept of the PCRs on a PID. A way from one to the next is a span where the clock goes on in it by at most a
/// second, and without a discontinuity.
#[derive(Clone, Copy, PartialEq, Eq)]
pub struct ClockSpan {
    /// The last PCR, if there was one.
    pub last: Option<MetClock>,
    /// How many positions the spans cover.
    pub positions: u64,
    /// How many units of the 27 MHz clock they take.
    pub units: u64,
    /// How many ways from one PCR to the next are no spans.
    pub breaks: u64,
}

impl ClockSpan {
    /// What is kept after one more PCR; `None` if a sum exceeds 64 bits, which takes 20,000 years.
    pub fn with(&self, met: MetClock, breaks: bool) -> Option<ClockSpan>
        ensures { result ≡ (if fits (span_with self.now met breaks) then Some (span_with self.now met breaks) else None) }
    {
        let (positions, units, broken) = way_to(self.last, met, breaks);
        Some(ClockSpan {
            last: Some(met),
            positions: self.positions.checked_add(positions)?,
            units: self.units.checked_add(units)?,
            breaks: self.breaks.checked_add(broken)?,
        })
    }

    /// The bit rate, in bits per second, rounded to the nearest; `None` if there are no units, or if it is above
    /// 10,000,000,000.
    pub fn rate(&self) -> Option<u64>
        ensures { result ≡ rate_over self.now.positions self.now.units }
    {
        if self.units == 0 {
            return None;
        }
        let rate = rounded(self.positions, PACKET_UNITS, self.units);
        if rate <= u128::from(MOST_BITRATE) {
            Some(rate as u64)
        } else {
            None
        }
    }
}

// The positions and units of the way from the last PCR to the next one if it is a span, else one break.
fn way_to(last: Option<MetClock>, met: MetClock, breaks: bool) -> (u64, u64, u64)
    ensures { result ≡ way_parts last met breaks }
{
    let Some(last) = last else {
        return (0, 0, 0);
    };
    let units = units_after(last.clock, met.clock);
    if has_part(breaks, units) {
        (met.at.saturating_sub(last.at), units, 0)
    } else {
        (0, 0, 1)
    }
}

// Whether a way of so many units has a part in the rate.
fn has_part(breaks: bool, units: u64) -> bool
    ensures { result ≡ has_part breaks units }
{
    !breaks && 0 < units && units <= LONGEST_SPAN
}
