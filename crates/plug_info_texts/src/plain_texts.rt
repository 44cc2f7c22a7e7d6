//! Which texts are shown as they are, and texts as strings of JSON.
ghost use Rattle.std.specs.Prelude.{◌≡◌, ◌++◌, ◌&&◌, not, IfOk, OnOk};
ghost use Rattle.std.specs.String.{string_bytes};
ghost use Rattle.plug_info_texts.specs.PlainTexts.{escaped, escaped_character, has_no_mark, is_control, is_harmless, is_plain, is_printed};

use std::alloc::{AllocError, Global};

/// The first byte of the characters from U+0080 to U+00BF in UTF-8.
const CONTROL_LEAD: u8 = 0xC2;

// Whether a byte is no control character, nor one with the byte before it.
fn is_shown(before: u8, byte: u8) -> bool
    ensures { result ≡ (is_printed byte && not (is_control before byte)) }
{
    let is_printed = 0x20 <= byte && byte != 0x7F;
    is_printed && !is_control(before, byte)
}

// Whether two bytes are a control character from U+0080 to U+009F.
fn is_control(first: u8, second: u8) -> bool
    ensures { result ≡ is_control first second }
{
    first == CONTROL_LEAD && 0x80 <= second && second <= 0x9F
}

/// Whether a text has no control character, neither one of ASCII nor one from U+0080 to U+009F.
pub fn is_harmless(text: &[u8]) -> bool
    ensures { result ≡ is_harmless text.now }
{
    let mut before = 0;
    for byte in text {
        if !is_shown(before, *byte) {
            return false;
        }
        before = *byte;
    }
    true
}

/// Whether a text may be in quotation marks as it is: it has no control character, no quotation mark and no
/// backslash.
pub fn is_plain(text: &[u8]) -> bool
    ensures { result ≡ is_plain text.now }
{
    if !is_harmless(text) {
        return false;
    }
    has_no_mark(text)
}

/// Whether a text has no quotation mark and no backslash.
pub fn has_no_mark(text: &[u8]) -> bool
    ensures { result ≡ has_no_mark text.now }
{
    text.iter().all(|byte| !(*byte == 0x22 || *byte == 0x5C))
}

/// A text as it is in a string of JSON: with a backslash before each quotation mark and each backslash (RFC 8259,
/// 7). It is to have no control character.
pub fn escaped(alloc: Global, text: &str) -> Result<String, AllocError>
    ensures { IfOk result (λ made. string_bytes made ≡ escaped text.now) }
{
    let mut made = String::new(alloc);
    for character in text.chars() {
        push_escaped(&mut made, character)?;
    }
    Ok(made)
}

// Appends a character, after a backslash where it has to have one.
fn push_escaped(made: &mut String, character: char) -> Result<(), AllocError>
    ensures { OnOk result (string_bytes made.new ≡ string_bytes made.old ++ escaped_character character) }
{
    if character == '"' || character == '\\' {
        made.push_str("\\")?;
        made.push(character)?;
        return Ok(());
    }
    made.push(character)?;
    Ok(())
}
