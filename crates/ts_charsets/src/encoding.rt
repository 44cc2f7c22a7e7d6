//! A text as bytes in an alphabet.

ghost use Rattle.std.specs.Prelude.{◌≡◌, ◌++◌, option_map, Some, None, chars, if◌then◌else◌, IfOk};
ghost use Rattle.ts_charsets.specs.CharTables.{table_of};
ghost use Rattle.ts_charsets.specs.Alphabets.{alphabet_of, single, double};
ghost use Rattle.ts_charsets.specs.AlphabetTexts;
ghost use Rattle.ts_charsets.specs.AlphabetTexts.{bytes_of};

use crate::alphabet::{Alphabet, pair_of};
use crate::char_table::{CharTable, accented_char, byte_of};
use std::alloc::{AllocError, Global};

// Appends the bytes of a character in a table; `false` where the table lacks it.
fn put_single(bytes: &mut Vec<u8>, table: CharTable, character: char) -> Result<bool, AllocError>
    ensures { IfOk result (λ known. (if known then Some bytes.new.items else None)
        ≡ option_map (λ more. bytes.old.items ++ more) (bytes_of (single (table_of table.entry)) character)) }
{
    if let Some(byte) = byte_of(table, character) {
        bytes.push(byte)?;
        return Ok(true);
    }
    let Some(accented) = accented_char(table, character) else {
        return Ok(false);
    };
    bytes.push(accented.accent)?;
    bytes.push(accented.letter)?;
    Ok(true)
}

// Appends the two bytes of a character; `false` where it has none.
fn put_double(bytes: &mut Vec<u8>, character: char) -> Result<bool, AllocError>
    ensures { IfOk result (λ known. (if known then Some bytes.new.items else None)
        ≡ option_map (λ more. bytes.old.items ++ more) (bytes_of double character)) }
{
    let Some((high, low)) = pair_of(character) else {
        return Ok(false);
    };
    bytes.push(high)?;
    bytes.push(low)?;
    Ok(true)
}

// Appends the bytes of a character; `false` where the alphabet lacks it.
fn put_char(bytes: &mut Vec<u8>, alphabet: Alphabet, character: char) -> Result<bool, AllocError>
    ensures { IfOk result (λ known. (if known then Some bytes.new.items else None)
        ≡ option_map (λ more. bytes.old.items ++ more) (bytes_of (alphabet_of alphabet.entry) character)) }
{
    match alphabet {
        Alphabet::Single(table) => put_single(bytes, table, character),
        Alphabet::Double => put_double(bytes, character),
    }
}

/// The characters of a text.
pub(crate) fn chars_of(alloc: Global, text: &str) -> Result<Vec<char>, AllocError>
    ensures { IfOk result (λ v. v.items ≡ chars text.now) }
{
    let mut characters = Vec::new(alloc);
    for character in text.chars() {
        characters.push(character)?;
    }
    Ok(characters)
}

// The bytes of characters in an alphabet; `None` where it lacks one.
fn bytes_of_chars(
    alloc: Global,
    alphabet: Alphabet,
    characters: &[char],
) -> Result<Option<Vec<u8>>, AllocError>
    ensures { IfOk result (λ bytes. option_map (λ v. v.items) bytes
        ≡ AlphabetTexts.bytes_in (alphabet_of alphabet.entry) characters.now) }
{
    let mut bytes = Vec::new(alloc);
    for character in characters {
        let known = put_char(&mut bytes, alphabet, *character)?;
        if !known {
            return Ok(None);
        }
    }
    Ok(Some(bytes))
}

/// The bytes of a text in an alphabet; `None` where it lacks a character.
pub fn bytes_in(
    alloc: Global,
    alphabet: Alphabet,
    text: &str,
) -> Result<Option<Vec<u8>>, AllocError>
    ensures { IfOk result (λ bytes. option_map (λ v. v.items) bytes
        ≡ AlphabetTexts.bytes_in (alphabet_of alphabet.entry) (chars text.now)) }
{
    let characters = chars_of(alloc, text)?;
    bytes_of_chars(alloc, alphabet, &characters)
}
