//! Texts of descriptors as bytes, and bytes as texts.

ghost use Rattle.std.specs.Prelude.{◌≡◌, List, ℕ, true, Some, None, if◌then◌else◌, option_map, IfOk};
ghost use Rattle.std.specs.Str.{is_utf8};
ghost use Rattle.ts_fields.specs.Reading;
ghost use Rattle.ts_fields.specs.Texts;

use std::alloc::{AllocError, Global};
use std::str;

/// The byte that marks a text as UTF-8 (ETSI EN 300 468, A.2).
const MARK: u8 = 0x15;

/// Whether each byte is printable ASCII, 0x20 to 0x7E.
pub fn are_printable(bytes: &[u8]) -> bool
    ensures { result ≡ Reading.are_printable bytes.now }
{
    bytes.iter().all(|byte| 0x20 <= *byte && *byte <= 0x7E)
}

/// The text of bytes: printable ASCII, or after a byte 0x15 UTF-8 that has any other character. `None` for all other
/// bytes. It allocates nothing.
pub fn text_of(bytes: &[u8]) -> Option<&str>
    ensures { option_map (λ text. text.now) result ≡ Texts.text_of bytes.now }
{
    if !are_printable(bytes) {
        return marked_text(bytes);
    }
    match str::from_utf8(bytes) {
        Ok(text) => Some(text),
        Err(_) => None,
    }
}

/// The text after the mark, if it is UTF-8 and not printable ASCII alone.
fn marked_text(bytes: &[u8]) -> Option<&str>
    ensures { option_map (λ text. text.now) result ≡ Texts.marked_text bytes.now }
{
    let Some((mark, text)) = bytes.split_first() else {
        return None;
    };
    if *mark != MARK {
        return None;
    }
    if are_printable(text) {
        return None;
    }
    utf8_of(text)
}

/// The text whose UTF-8 the bytes are.
fn utf8_of(bytes: &[u8]) -> Option<&str>
    ensures { option_map (λ text. text.now) result ≡ (if is_utf8 bytes.now then Some bytes.now else None) }
{
    match str::from_utf8(bytes) {
        Ok(text) => Some(text),
        Err(_) => None,
    }
}

/// The bytes of a text, with the mark where it is not printable ASCII alone.
pub fn text_bytes(alloc: Global, text: &str) -> Result<Vec<u8>, AllocError>
    ensures { IfOk result (λ v. v.items ≡ Texts.text_bytes text.now) }
{
    if are_printable(text.as_bytes()) {
        return Vec::from_slice(alloc, text.as_bytes());
    }
    let mut bytes = Vec::from_slice(alloc, &[MARK])?;
    bytes.extend_from_slice(text.as_bytes())?;
    Ok(bytes)
}

/// A text and its bytes determine each other. A law; it runs nothing.
pub fn texts_tell_bytes()
    ensures written { (row text : List ℕ) → Texts.text_of row ≡ Some text → Texts.text_bytes text ≡ row }
    ensures read { (text : List ℕ) → is_utf8 text ≡ true → Texts.text_of (Texts.text_bytes text) ≡ Some text }
{}
