//! The ways in which bytes are characters, and what two bytes or one character is where a character has two.

ghost use Rattle.std.specs.Prelude.{◌≡◌};
ghost use Rattle.ts_charsets.specs.Alphabets;

use crate::char_table::CharTable;

/// How bytes are characters.
#[derive(Clone, Copy)]
pub enum Alphabet<'a> {
    /// By a table: one byte a character, or an accent and the letter after it.
    Single(CharTable<'a>),
    /// By the numbers of ISO/IEC 10646 up to 0xFFFF: two bytes a character, the high one first.
    Double,
}

/// The character of two bytes; NUL where they have none.
pub(crate) fn pair_char(high: u8, low: u8) -> char
    ensures { result ≡ Alphabets.pair_char high low }
{
    let number = u32::from(high) * 256 + u32::from(low);
    if number == 0xE08A {
        return '\n';
    }
    if number < 0x20 {
        return '\0';
    }
    match char::from_u32(number) {
        Some(character) => character,
        None => '\0',
    }
}

/// The two bytes of a character.
pub(crate) fn pair_of(character: char) -> Option<(u8, u8)>
    ensures { result ≡ Alphabets.pair_of character }
{
    let number = character as u32;
    if number == 10 {
        Some((0xE0, 0x8A))
    } else if number < 0x20 {
        None
    } else if 0xFFFF < number {
        None
    } else if number == 0xE08A {
        None
    } else {
        Some(((number / 256) as u8, (number % 256) as u8))
    }
}
