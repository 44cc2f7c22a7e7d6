//! UTC_time of ETSI EN 300 468, 5.2.5: a day of 16 bits, and a time of day in six decimal digits.

ghost use Rattle.std.specs.Prelude.{◌≡◌, ◌<◌, length};
ghost use Rattle.plug_time.specs.UtcTime as utc;

use ts_fields::is_time;

/// The seconds of a day.
const DAY: u64 = 86_400;

/// The seconds of all days of 16 bits.
const ALL_DAYS: u64 = 65_536 * DAY;

/// The size of a time.
pub(crate) const TIME_SIZE: usize = 5;

/// The time so many seconds later, or earlier; none where it is no time of day, and where it would leave its 16 bits of days.
#[tactic(auto, unfolding(crate::specs::UtcTime::later))]
pub(crate) fn later(time: &[u8; TIME_SIZE], shift: i64) -> Option<[u8; TIME_SIZE]>
    ensures { result ≡ utc.later shift time.now }
{
    if !is_time_of_day(time) {
        return None;
    }
    let seconds = seconds_of(time).checked_add_signed(shift)?;
    if seconds < ALL_DAYS {
        Some(time_bytes(seconds))
    } else {
        None
    }
}

// Whether the last three bytes are a time of day.
fn is_time_of_day(time: &[u8; TIME_SIZE]) -> bool
    ensures { result ≡ utc.is_time_of_day time.now }
{
    let number = u64::from(time[2]) * 65_536 + (u64::from(time[3]) * 256 + u64::from(time[4]));
    is_time(23, number)
}

// The number that two decimal digits of four bits write.
fn pair_value(byte: u8) -> u64
    ensures value { result ≡ utc.pair_value byte }
    ensures range { result < 256 }
{
    u64::from(byte) / 16 * 10 + u64::from(byte) % 16
}

// The two decimal digits of a number.
fn pair_byte(number: u64) -> u8
    requires { number < 100 }
    ensures { result ≡ utc.pair_byte number }
{
    (number / 10 * 16 + number % 10) as u8
}

// The seconds from the beginning of day 0 on.
fn seconds_of(time: &[u8; TIME_SIZE]) -> u64
    ensures { result ≡ utc.seconds_of time.now }
{
    let day = u64::from(time[0]) * 256 + u64::from(time[1]);
    let minutes = pair_value(time[2]) * 60 + pair_value(time[3]);
    DAY * day + (minutes * 60 + pair_value(time[4]))
}

// The bytes of the time after so many seconds.
fn time_bytes(seconds: u64) -> [u8; TIME_SIZE]
    requires { seconds < 5_662_310_400 }
    ensures { result ≡ utc.time_bytes seconds }
{
    let day = seconds / DAY;
    [
        (day / 256) as u8,
        (day % 256) as u8,
        pair_byte(seconds % DAY / 3600),
        pair_byte(seconds % 3600 / 60),
        pair_byte(seconds % 60),
    ]
}
