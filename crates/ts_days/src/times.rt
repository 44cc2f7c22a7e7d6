//! Times, and starts of events, as texts.

ghost use Rattle.std.specs.Prelude.{◌≡◌, ◌<◌, ◌*◌, ◌^◌, length, string_bytes, IfOk, IfSome};
ghost use Rattle.ts_days.specs.TimeTexts;

use crate::days::{day_of_bytes, day_text};
use crate::digits::digit_at;
use std::alloc::{AllocError, Global};
use std::marker::Model;
use ts_fields::{is_time, text_of};

/// The 40 bits of a start that is undefined (ETSI EN 300 468, 5.2.4).
const UNDEFINED: u64 = 0xFF_FFFF_FFFF;

/// The text of a time, which contracts see as its eight bytes. `time_text` makes it.
#[derive(Clone, Copy)]
pub struct TimeText {
    bytes: [u8; 8],
}

impl Model for TimeText {
    ghost use Rattle.std.specs.Prelude.{◌≡◌, ℕ, List, true};
    ghost use Rattle.ts_fields.specs.Reading.{are_printable};

    ghost Value = { List ℕ };

    ghost view = { λ t. t.bytes };

    ghost invariant = { λ t. are_printable t.bytes ≡ true };

    ghost inverse = { λ row. record { bytes = row } };
}

impl TimeText {
    /// The text as a `str`.
    pub fn as_str(&self) -> &str
        ensures { result.now ≡ self.now }
    {
        match text_of(&self.bytes) {
            Some(text) => text,
            None => unreachable!(),
        }
    }
}

/// The ASCII byte of the digit in the low four bits.
fn low_digit(number: u64) -> u8
    ensures { result ≡ TimeTexts.low_digit number }
{
    b'0' + (number % 16) as u8
}

/// The text `hh:mm:ss` of six decimal digits of four bits each (BCD).
#[tactic(auto, unfolding(crate::specs::TimeTexts::time_text))]
pub fn time_text(number: u64) -> TimeText
    ensures { result ≡ TimeTexts.time_text number }
{
    TimeText {
        bytes: [
            low_digit(number / 0x10_0000),
            low_digit(number / 0x1_0000),
            b':',
            low_digit(number / 0x1000),
            low_digit(number / 0x100),
            b':',
            low_digit(number / 0x10),
            low_digit(number),
        ],
    }
}

/// The six digits of the time that a text writes as `hh:mm:ss`, four bits each; none for any other text, and
/// where the hours are above `hours`, or minutes or seconds above 59.
pub fn time_of(hours: u64, text: &str) -> Option<u64>
    ensures { result ≡ TimeTexts.time_of hours text.now }
{
    time_of_bytes(hours, text.as_bytes())
}

/// `time_of` for the bytes of a text.
#[tactic(auto, unfolding(crate::specs::TimeTexts::time_of))]
fn time_of_bytes(hours: u64, text: &[u8]) -> Option<u64>
    ensures time { result ≡ TimeTexts.time_of hours text.now }
    ensures small { IfSome result (λ n. n < 2 ^ 24) }
{
    if text.len() != 8 {
        return None;
    }
    if text[2] != b':' {
        return None;
    }
    if text[5] != b':' {
        return None;
    }
    let digits = digits_written(text)?;
    if !is_time(hours, digits) {
        return None;
    }
    Some(digits)
}

/// The six digits of a text of eight bytes, four bits each; none where one of them is not a digit.
#[tactic(auto, unfolding(crate::specs::TimeTexts::digits_written))]
fn digits_written(text: &[u8]) -> Option<u64>
    requires { length text.now ≡ 8 }
    ensures digits { result ≡ TimeTexts.digits_written text.now }
    ensures small { IfSome result (λ n. n < 2 ^ 24) }
{
    let a = u64::from(digit_at(text, 0)?);
    let b = u64::from(digit_at(text, 1)?);
    let c = u64::from(digit_at(text, 3)?);
    let d = u64::from(digit_at(text, 4)?);
    let e = u64::from(digit_at(text, 6)?);
    let f = u64::from(digit_at(text, 7)?);
    Some(0x10_0000 * a + 0x1_0000 * b + 0x1000 * c + 0x100 * d + 0x10 * e + f)
}

/// The text `YYYY-MM-DD hh:mm:ss` of the 40 bits of a start, or `undefined` where all are ones
/// (ETSI EN 300 468, 5.2.4).
#[tactic(auto, unfolding(crate::specs::TimeTexts::start_text))]
pub fn start_text(alloc: Global, number: u64) -> Result<String, AllocError>
    ensures { IfOk result (λ text. string_bytes text ≡ TimeTexts.start_text number) }
{
    if number == UNDEFINED {
        return String::from_str(alloc, "undefined");
    }
    let day = day_text((number / 0x100_0000 % 0x1_0000) as u16);
    let time = time_text(number);
    let mut text = String::from_str(alloc, day.as_str())?;
    text.push_str(" ")?;
    text.push_str(time.as_str())?;
    Ok(text)
}

/// The 40 bits of the start that a text writes as `YYYY-MM-DD hh:mm:ss`, or `undefined`; none for any other
/// text, and for a day or a time that does not exist.
#[tactic(auto, unfolding(crate::specs::TimeTexts::start_of))]
pub fn start_of(text: &str) -> Option<u64>
    ensures { result ≡ TimeTexts.start_of text.now }
{
    if text == "undefined" {
        return Some(UNDEFINED);
    }
    let bytes = text.as_bytes();
    if bytes.len() != 19 {
        return None;
    }
    if bytes[10] != b' ' {
        return None;
    }
    moment_of(bytes)
}

/// The 40 bits of the day and the time that a text of 19 bytes writes.
#[tactic(auto, unfolding(crate::specs::TimeTexts::moment_of))]
fn moment_of(text: &[u8]) -> Option<u64>
    requires { length text.now ≡ 19 }
    ensures { result ≡ TimeTexts.moment_of text.now }
{
    let day = u64::from(day_of_bytes(&text[..10])?);
    let time = time_of_bytes(23, &text[11..])?;
    Some(0x100_0000 * day + time)
}
