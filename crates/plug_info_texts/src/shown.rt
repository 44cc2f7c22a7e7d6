//! Bytes and numbers that may be missing, as text.
ghost use Rattle.std.specs.Prelude.{◌≡◌, IfOk, option_map};
ghost use Rattle.std.specs.Option.{option_copied};
ghost use Rattle.std.specs.String.{string_bytes};
ghost use Rattle.plug_info_texts.specs.InfoTexts;

use crate::plain_texts::is_plain;
use std::alloc::{AllocError, Global};
use ts_charsets::shown_text;
use ts_fields::text_of;

/// Bytes as they are shown: as a text in quotation marks, if they are one that can be there as it is, else as
/// hexadecimal digits.
pub fn shown(alloc: Global, bytes: &[u8]) -> Result<String, AllocError>
    ensures { IfOk result (λ text. string_bytes text ≡ InfoTexts.shown bytes.now) }
{
    let Some(text) = text_of(bytes) else {
        let hex = hex_text(alloc, bytes)?;
        return Ok(hex);
    };
    if is_plain(text.as_bytes()) {
        let quoted = format!(in alloc; "\"{text}\"")?;
        return Ok(quoted);
    }
    let hex = hex_text(alloc, bytes)?;
    Ok(hex)
}

/// The bytes of a name as they are shown: as a text in the character table that they select, in quotation marks, if it
/// is one that stands there as it is, else as hexadecimal digits.
pub fn shown_name(alloc: Global, bytes: &[u8]) -> Result<String, AllocError>
    ensures { IfOk result (λ text. string_bytes text ≡ InfoTexts.shown_name bytes.now) }
{
    let Some(text) = shown_text(alloc, bytes)? else {
        let hex = hex_text(alloc, bytes)?;
        return Ok(hex);
    };
    if is_plain(text.as_bytes()) {
        let quoted = format!(in alloc; "\"{text}\"")?;
        return Ok(quoted);
    }
    let hex = hex_text(alloc, bytes)?;
    Ok(hex)
}

/// Bytes as hexadecimal digits after `0x`.
pub fn hex_text(alloc: Global, bytes: &[u8]) -> Result<String, AllocError>
    ensures { IfOk result (λ text. string_bytes text ≡ InfoTexts.hex_text bytes.now) }
{
    let digits = hex::encode(alloc, bytes)?;
    let text = format!(in alloc; "0x{digits}")?;
    Ok(text)
}

/// The bytes of a name as they are shown, or `none`.
pub fn shown_or_none(alloc: Global, bytes: Option<&[u8]>) -> Result<String, AllocError>
    ensures { IfOk result (λ text. string_bytes text ≡ InfoTexts.shown_or_none (option_map (λ b. b.now) bytes.entry)) }
{
    let text = match bytes {
        Some(bytes) => shown_name(alloc, bytes)?,
        None => String::from_str(alloc, "none")?,
    };
    Ok(text)
}

/// A number, or `none`.
pub fn number_or_none(alloc: Global, number: Option<u64>) -> Result<String, AllocError>
    ensures { IfOk result (λ text. string_bytes text ≡ InfoTexts.number_or_none number) }
{
    let text = match number {
        Some(number) => format!(in alloc; "{number}")?,
        None => String::from_str(alloc, "none")?,
    };
    Ok(text)
}

/// The same number with 64 bits, if there is one.
pub fn widened(number: Option<u16>) -> Option<u64>
    ensures { result ≡ number }
{
    match number {
        Some(number) => Some(u64::from(number)),
        None => None,
    }
}
