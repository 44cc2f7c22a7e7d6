//! Days of the calendar and their numbers.

ghost use Rattle.std.specs.Prelude.{◌≡◌, ◌≤◌, ◌<◌, ◌⊎◌, pos, neg_ℤ, ◌+ℤ◌, ◌≤ℤ◌, ◌<ℤ◌, IfSome, IfNone};
ghost use Rattle.ts_days.specs.Calendar;

use jiff_core::civil::Date;

/// The number of 1970-01-01, in days from 1858-11-17 on.
const EPOCH: i32 = 40_587;

/// A day as a text writes it, whether or not the calendar has it.
#[derive(Clone, Copy)]
pub struct Day {
    /// The year, from 0 to 9999.
    pub year: u32,
    /// The month, from 1 for January to 12.
    pub month: u32,
    /// The day of the month, from 1.
    pub day: u32,
}

/// The number of a day, from 1858-11-17 on; none where the calendar has no such day, or its number is outside 0 to 65535.
pub fn number_of_day(written: Day) -> Option<u16>
    requires year { written.year ≤ 9999 }
    requires month { written.month ≤ 99 }
    requires day { written.day ≤ 99 }
    ensures { result ≡ Calendar.number_of_day written }
{
    if written.year < 1858 {
        return None;
    }
    match Date::new(written.year as i16, written.month as i8, written.day as i8) {
        Ok(date) => number_of_epoch_day(date.to_unix_epoch_day()),
        Err(_) => None,
    }
}

/// The 16-bit number of the day that is this many days after 1970-01-01; none where it is outside 0 to 65535.
fn number_of_epoch_day(day: i32) -> Option<u16>
    requires low { neg_ℤ (pos 4_371_587) ≤ℤ day }
    requires high { day ≤ℤ pos 2_932_896 }
    ensures some { IfSome result (λ number. (pos number ≡ day +ℤ pos 40587) × (number < 65536)) }
    ensures none { IfNone result (((day +ℤ pos 40587) <ℤ pos 0) ⊎ (pos 65535 <ℤ (day +ℤ pos 40587))) }
{
    u16::try_from(day + EPOCH).ok()
}

/// The day with this number.
pub fn day_numbered(number: u16) -> Day
    ensures day { result ≡ Calendar.day_numbered number }
    ensures year { result.year ≤ 9999 }
{
    match Date::from_unix_epoch_day(i64::from(number) - i64::from(EPOCH)) {
        Ok(date) => Day {
            year: date.year as u32,
            month: u32::from(date.month),
            day: u32::from(date.day),
        },
        Err(_) => unreachable!(),
    }
}
