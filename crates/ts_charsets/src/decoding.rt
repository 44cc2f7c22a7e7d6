//! Bytes as a text in an alphabet.

ghost use Rattle.std.specs.Prelude.{◌≡◌, option_map, encode_utf8_all, string_bytes, IfOk};
ghost use Rattle.ts_charsets.specs.CharTables.{table_of};
ghost use Rattle.ts_charsets.specs.Alphabets.{alphabet_of};
ghost use Rattle.ts_charsets.specs.AlphabetTexts;
ghost use Rattle.ts_charsets.specs.AlphabetTexts.{chars_in};

use crate::alphabet::{Alphabet, pair_char};
use crate::char_table::{CharTable, char_of, letter_of};
use std::alloc::{AllocError, Global};

// An accented letter, and the bytes after it.
fn first_letter<'a>(table: CharTable, accent: u8, rest: &'a [u8]) -> Option<(char, &'a [u8])>
    ensures { option_map (λ x. (x.0, x.1.now)) result ≡ AlphabetTexts.first_letter (table_of table.entry) accent rest.now }
{
    let Some((letter, more)) = rest.split_first() else {
        return None;
    };
    match letter_of(table, accent, *letter) {
        Some(accented) => {
            let shown = accented.shown;
            Some((shown, more))
        }
        None => None,
    }
}

// The first character in a table, and the bytes after it.
fn first_single<'a>(table: CharTable, bytes: &'a [u8]) -> Option<(char, &'a [u8])>
    ensures { option_map (λ x. (x.0, x.1.now)) result ≡ AlphabetTexts.first_single (table_of table.entry) bytes.now }
{
    let Some((first, rest)) = bytes.split_first() else {
        return None;
    };
    let character = char_of(table, *first);
    if character == '\0' {
        return first_letter(table, *first, rest);
    }
    Some((character, rest))
}

// The character of the first two bytes, and the bytes after them.
fn first_double(bytes: &[u8]) -> Option<(char, &[u8])>
    ensures { option_map (λ x. (x.0, x.1.now)) result ≡ AlphabetTexts.first_double bytes.now }
{
    let Some((high, rest)) = bytes.split_first() else {
        return None;
    };
    let Some((low, more)) = rest.split_first() else {
        return None;
    };
    let character = pair_char(*high, *low);
    if character == '\0' {
        return None;
    }
    Some((character, more))
}

// The first character, and the bytes after it.
fn first_char<'a>(alphabet: Alphabet, bytes: &'a [u8]) -> Option<(char, &'a [u8])>
    ensures { option_map (λ x. (x.0, x.1.now)) result ≡ AlphabetTexts.first_char (alphabet_of alphabet.entry) bytes.now }
{
    match alphabet {
        Alphabet::Single(table) => first_single(table, bytes),
        Alphabet::Double => first_double(bytes),
    }
}

/// The text of bytes in an alphabet; `None` where some bytes have no character there.
pub fn text_in(
    alloc: Global,
    alphabet: Alphabet,
    bytes: &[u8],
) -> Result<Option<String>, AllocError>
    ensures { IfOk result (λ text. option_map string_bytes text
        ≡ option_map encode_utf8_all (chars_in (alphabet_of alphabet.entry) bytes.now)) }
{
    let mut text = String::new(alloc);
    let mut rest = bytes;
    while rest.len() != 0 {
        let Some((character, after)) = first_char(alphabet, rest) else {
            return Ok(None);
        };
        text.push(character)?;
        rest = after;
    }
    Ok(Some(text))
}
