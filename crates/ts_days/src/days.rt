//! Days as texts.
//!
//! They are here, over the calendar of `jiff_core` and beside the times of events, and not in `ts_eit`: JSON needs
//! them, and does not need the EIT. A `DayText` keeps its ten bytes itself, so neither call takes memory.

ghost use Rattle.std.specs.Prelude.{◌≡◌, ◌≤◌, length, IfSome};
ghost use Rattle.ts_days.specs.DayTexts;

use crate::calendar::{Day, day_numbered, number_of_day};
use crate::digits::{digit_at, last_digit};
use std::marker::Model;
use ts_fields::text_of;

/// The text of a day, which contracts see as its ten bytes. `day_text` makes it.
#[derive(Clone, Copy)]
pub struct DayText {
    bytes: [u8; 10],
}

impl Model for DayText {
    ghost use Rattle.std.specs.Prelude.{◌≡◌, ℕ, List, true};
    ghost use Rattle.ts_fields.specs.Reading.{are_printable};

    ghost Value = { List ℕ };

    ghost view = { λ t. t.bytes };

    ghost invariant = { λ t. are_printable t.bytes ≡ true };

    ghost inverse = { λ row. record { bytes = row } };
}

impl DayText {
    /// The text as a `str`.
    pub fn as_str(&self) -> &str
        ensures { result.now ≡ self.now }
    {
        match text_of(&self.bytes) {
            Some(text) => text,
            None => unreachable!(),
        }
    }
}

/// The text `YYYY-MM-DD` of the day with this number (ETSI EN 300 468, annex C): 0 is 1858-11-17 and 65535
/// is 2038-04-22.
#[tactic(auto, unfolding(crate::specs::DayTexts::day_text))]
pub fn day_text(day: u16) -> DayText
    ensures { result ≡ DayTexts.day_text day }
{
    let of = day_numbered(day);
    DayText {
        bytes: [
            last_digit(of.year / 1000),
            last_digit(of.year / 100),
            last_digit(of.year / 10),
            last_digit(of.year),
            b'-',
            last_digit(of.month / 10),
            last_digit(of.month),
            b'-',
            last_digit(of.day / 10),
            last_digit(of.day),
        ],
    }
}

/// The number of the day that a text writes as `YYYY-MM-DD`; none for any other text, for a day that the
/// calendar does not have, and for one before 1858-11-17 or after 2038-04-22.
pub fn day_of(text: &str) -> Option<u16>
    ensures { result ≡ DayTexts.day_of text.now }
{
    day_of_bytes(text.as_bytes())
}

/// `day_of` for the bytes of a text.
#[tactic(auto, unfolding(crate::specs::DayTexts::day_of))]
pub fn day_of_bytes(text: &[u8]) -> Option<u16>
    ensures { result ≡ DayTexts.day_of text.now }
{
    if text.len() != 10 {
        return None;
    }
    if text[4] != b'-' {
        return None;
    }
    if text[7] != b'-' {
        return None;
    }
    let written = day_written(text)?;
    number_of_day(written)
}

/// The year, month and day that the digits of a text of ten bytes write; none where one of them is not a digit.
#[tactic(auto, unfolding(crate::specs::DayTexts::day_written))]
fn day_written(text: &[u8]) -> Option<Day>
    requires { length text.now ≡ 10 }
    ensures day { result ≡ DayTexts.day_written text.now }
    ensures year { IfSome result (λ d. d.year ≤ 9999) }
    ensures month { IfSome result (λ d. d.month ≤ 99) }
    ensures of_month { IfSome result (λ d. d.day ≤ 99) }
{
    let a = digit_at(text, 0)?;
    let b = digit_at(text, 1)?;
    let c = digit_at(text, 2)?;
    let d = digit_at(text, 3)?;
    let e = digit_at(text, 5)?;
    let f = digit_at(text, 6)?;
    let g = digit_at(text, 8)?;
    let h = digit_at(text, 9)?;
    Some(Day {
        year: 1000 * a + 100 * b + 10 * c + d,
        month: 10 * e + f,
        day: 10 * g + h,
    })
}
