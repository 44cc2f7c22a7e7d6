//! Bytes as a text in the table that they select, and a text as bytes in a table that is named.

ghost use Rattle.std.specs.Prelude.{◌≡◌, ◌≤◌, length, option_map, string_bytes, IfOk, None};
ghost use Rattle.ts_charsets.specs.TextTables;
ghost use Rattle.ts_charsets.specs.TextTables.{text_after, text_by, text_table};
ghost use Rattle.ts_charsets.specs.KnownAlphabets;

use crate::charset::{Charset, alphabet_for};
use crate::decoding::text_in;
use crate::encoding::bytes_in;
use crate::text_table::{TextTable, text_table_of};
use std::alloc::{AllocError, Global};
use std::str;

/// The name of the table that the first bytes of a text select, and the text of the others in it; `None` where they
/// select no table, or where some of the others have no character in it.
#[tactic(auto, unfolding(crate::specs::TextTables::tabled_text))]
pub fn tabled_text(
    alloc: Global,
    bytes: &[u8],
) -> Result<Option<(&'static str, String)>, AllocError>
    ensures { IfOk result (λ found. option_map (λ x. (x.0.now, string_bytes x.1)) found ≡ TextTables.tabled_text bytes.now) }
{
    let Some(table) = text_table_of(bytes) else {
        return Ok(None);
    };
    match text_after_selection(alloc, table, bytes)? {
        Some(text) => Ok(Some((table.name, text))),
        None => Ok(None),
    }
}

// The text of the bytes after those that select the table.
fn text_after_selection(
    alloc: Global,
    table: &TextTable,
    bytes: &[u8],
) -> Result<Option<String>, AllocError>
    requires { length table.now.selects.now ≤ length bytes.now }
    ensures { IfOk result (λ text. option_map string_bytes text ≡ text_after (text_table table.now) bytes.now) }
{
    let start = table.selects.len();
    text_by_charset(alloc, table.charset, &bytes[start..])
}

// The text of bytes in a character set.
fn text_by_charset(
    alloc: Global,
    charset: Charset,
    bytes: &[u8],
) -> Result<Option<String>, AllocError>
    ensures { IfOk result (λ text. option_map string_bytes text ≡ text_by (KnownAlphabets.alphabet_for charset) bytes.now) }
{
    match alphabet_for(charset) {
        Some(alphabet) => text_in(alloc, alphabet, bytes),
        None => utf8_text(alloc, bytes),
    }
}

// The text whose UTF-8 the bytes are.
fn utf8_text(alloc: Global, bytes: &[u8]) -> Result<Option<String>, AllocError>
    ensures { IfOk result (λ text. option_map string_bytes text ≡ text_by None bytes.now) }
{
    match str::from_utf8(bytes) {
        Ok(text) => Ok(Some(String::from_str(alloc, text)?)),
        Err(_) => Ok(None),
    }
}

/// The bytes of a text in a table, after those that select it; `None` where the table lacks a character.
#[tactic(auto, unfolding(crate::specs::TextTables::bytes_by_table))]
pub fn bytes_by_table(
    alloc: Global,
    table: &TextTable,
    text: &str,
) -> Result<Option<Vec<u8>>, AllocError>
    ensures { IfOk result (λ bytes. option_map (λ v. v.items) bytes
        ≡ TextTables.bytes_by_table (text_table table.now) text.now) }
{
    let Some(encoded) = bytes_by_charset(alloc, table.charset, text)? else {
        return Ok(None);
    };
    let mut bytes = Vec::from_slice(alloc, table.selects)?;
    bytes.extend_from_slice(&encoded)?;
    Ok(Some(bytes))
}

// The bytes of a text in a character set; `None` where it lacks a character.
fn bytes_by_charset(
    alloc: Global,
    charset: Charset,
    text: &str,
) -> Result<Option<Vec<u8>>, AllocError>
    ensures { IfOk result (λ bytes. option_map (λ v. v.items) bytes
        ≡ TextTables.bytes_by (KnownAlphabets.alphabet_for charset) text.now) }
{
    match alphabet_for(charset) {
        Some(alphabet) => bytes_in(alloc, alphabet, text),
        None => Ok(Some(Vec::from_slice(alloc, text.as_bytes())?)),
    }
}
