//! Starts and durations of events as bits (ETSI EN 300 468, 5.2.4).

ghost use Rattle.std.specs.Prelude.{◌≡◌, ◌≤◌, ◌<◌, ◌^◌, ℕ, true};
ghost use Rattle.ts_fields.specs.Times.{is_start, is_time, is_pair};
ghost use Rattle.ts_eit.specs.EventTimes;

use crate::start::Start;

/// The 40 bits of a start that is undefined.
const UNDEFINED: u64 = 0xFF_FFFF_FFFF;

/// A number below 100 as two decimal digits of four bits each.
#[tactic(auto, unfolding(crate::specs::EventTimes::pair_bits))]
fn pair_bits(number: u64) -> u64
    requires { number < 100 }
    ensures bits { result ≡ EventTimes.pair_bits number }
    ensures small { result < 256 }
{
    number / 10 * 16 + number % 10
}

/// The number of two decimal digits of four bits each.
fn pair_value(bits: u64) -> u64
    requires { is_pair 99 bits ≡ true }
    ensures bits { EventTimes.pair_bits result ≡ bits }
    ensures below { result < 100 }
    ensures most { (most : ℕ) → is_pair most bits ≡ true → result ≤ most }
{
    bits / 16 * 10 + bits % 16
}

/// A number of seconds as hours, minutes and seconds, of two decimal digits each.
#[tactic(auto, unfolding(crate::specs::EventTimes::time_bits))]
pub fn time_bits(seconds: u32) -> u64
    requires { seconds < 360000 }
    ensures bits { result ≡ EventTimes.time_bits seconds }
    ensures small { result < 2 ^ 24 }
    ensures valid { is_time 99 result ≡ true }
    ensures of_day { seconds < 86400 → is_time 23 result ≡ true }
{
    let seconds = u64::from(seconds);
    pair_bits(seconds / 3600) * 65536
        + (pair_bits(seconds / 60 % 60) * 256 + pair_bits(seconds % 60))
}

/// The number of seconds of hours, minutes and seconds, of two decimal digits each.
pub fn time_value(bits: u64) -> u32
    requires { is_time 99 bits ≡ true }
    ensures bits { EventTimes.time_bits result ≡ bits }
    ensures most { result < 360000 }
    ensures of_day { is_time 23 bits ≡ true → result < 86400 }
{
    let hours = pair_value(bits / 65536);
    let minutes = pair_value(bits / 256 % 256);
    let seconds = pair_value(bits % 256);
    (hours * 3600 + (minutes * 60 + seconds)) as u32
}

/// The 40 bits of a start: all ones, which means undefined, where there is none.
#[tactic(auto, unfolding(crate::specs::EventTimes::start_bits))]
pub fn start_bits(start: Option<Start>) -> u64
    ensures bits { result ≡ EventTimes.start_bits start }
    ensures small { result < 2 ^ 40 }
    ensures valid { is_start result ≡ true }
{
    match start {
        Some(start) => u64::from(start.day) * 0x100_0000 + time_bits(start.second),
        None => UNDEFINED,
    }
}

/// The start of 40 bits; `None` where it is undefined.
#[tactic(auto, unfolding(crate::specs::EventTimes::start_bits))]
pub fn start_value(bits: u64) -> Option<Start>
    requires small { bits < 2 ^ 40 }
    requires valid { is_start bits ≡ true }
    ensures { EventTimes.start_bits result ≡ bits }
{
    if bits == UNDEFINED {
        return None;
    }
    Some(Start {
        day: (bits / 0x100_0000) as u16,
        second: time_value(bits % 0x100_0000),
    })
}
