//! Starts of events, moved (ETSI EN 300 468, 5.2.4).

ghost use Rattle.std.specs.Prelude.{◌≡◌, ◌+◌, ◌+ℤ◌, ◌*◌, ◌<◌, IfSome, Some, pos};
ghost use Rattle.ts_eit.specs.EventTimes.{start_bits};
ghost use Rattle.plug_time.specs.UtcTime.{if_held};
ghost use Rattle.plug_eit.specs.EventStart as starts;

use ts_eit::Start;

/// The seconds of a day.
const DAY: u64 = 86_400;

/// The seconds of all days of 16 bits.
const ALL_DAYS: u64 = 65_536 * DAY;

/// A start so much later, where a shift is given: one that is undefined stays, and so does one that would leave its 16 bits of days.
pub(crate) fn shifted_start(start: Option<Start>, shift: Option<i64>) -> Option<Start>
    ensures { start_bits result ≡ starts.shifted_start shift (start_bits start) }
{
    match shift {
        Some(shift) => moved_start(start, shift),
        None => start,
    }
}

// A start so much later; one that is undefined stays.
#[tactic(auto, using(crate::proofs::EventStartLemmas::later_undefined))]
fn moved_start(start: Option<Start>, shift: i64) -> Option<Start>
    ensures { start_bits result ≡ starts.later_start shift (start_bits start) }
{
    match start {
        Some(start) => Some(later_start(start, shift)),
        None => None,
    }
}

// A start so many seconds later, or earlier; the same where it would leave its 16 bits of days.
fn later_start(start: Start, shift: i64) -> Start
    ensures { start_bits (Some result) ≡ starts.later_start shift (start_bits (Some start)) }
{
    match later_seconds(start, shift) {
        Some(seconds) => start_of(seconds),
        None => start,
    }
}

// The seconds from the beginning of day 0 to a start so much later; none where their day has not 16 bits.
fn later_seconds(start: Start, shift: i64) -> Option<u64>
    ensures held { result ≡ if_held (pos (start.day * 86400 + start.second) +ℤ shift) }
    ensures range { IfSome result (λ seconds. seconds < 5_662_310_400) }
{
    let seconds = seconds_of(start).checked_add_signed(shift)?;
    if seconds < ALL_DAYS {
        Some(seconds)
    } else {
        None
    }
}

// The seconds from the beginning of day 0 on.
fn seconds_of(start: Start) -> u64
    ensures { result ≡ start.day * 86400 + start.second }
{
    u64::from(start.day) * DAY + u64::from(start.second)
}

// The start after so many seconds.
fn start_of(seconds: u64) -> Start
    requires { seconds < 5_662_310_400 }
    ensures { start_bits (Some result) ≡ starts.seconds_bits seconds }
{
    Start {
        day: (seconds / DAY) as u16,
        second: (seconds % DAY) as u32,
    }
}
