//! Parts of the JSON texts.
ghost use Rattle.std.specs.Prelude.{◌≡◌, ◌++◌, IfOk, OnOk, List, ℕ, option_map};
ghost use Rattle.std.specs.List.{flat_map};
ghost use Rattle.std.specs.String.{string_bytes};
ghost use Rattle.ts_charsets.specs.ShownTexts;
ghost use Rattle.ts_fields.specs.Texts.{text_of as text_that_is};
ghost use Rattle.plug_info_texts.specs.InfoJson;
ghost use Rattle.plug_info_texts.specs.InfoJson.{after_comma, joined};

use crate::pid_numbers::PidNumbers;
use crate::plain_texts::{escaped, is_harmless};
use crate::portions::rate_part;
use crate::scene::Scene;
use crate::shown::hex_text;
use std::alloc::{AllocError, Global};
use ts_charsets::shown_text;
use ts_fields::text_of;

/// Appends an item after a comma.
pub fn push_item(items: &mut String, item: &str) -> Result<(), AllocError>
    ensures { OnOk result (string_bytes items.new ≡ string_bytes items.old ++ after_comma item.now) }
{
    items.push_str(",")?;
    items.push_str(item)?;
    Ok(())
}

/// The array of items, each of which has a comma before it.
pub fn array(alloc: Global, items: &str) -> Result<String, AllocError>
    ensures { IfOk result (λ text. (texts : List (List ℕ)) → items.now ≡ flat_map after_comma texts
        → string_bytes text ≡ InfoJson.array texts) }
{
    let inner = without_comma(items);
    let text = format!(in alloc; "[{inner}]")?;
    Ok(text)
}

// The items without the first comma, if there is one.
fn without_comma(items: &str) -> &str
    ensures { (texts : List (List ℕ)) → items.now ≡ flat_map after_comma texts → result.now ≡ joined texts }
{
    match items.strip_prefix(",") {
        Some(rest) => rest,
        None => items,
    }
}

/// A number, or `null`.
pub fn number_or_null(alloc: Global, number: Option<u64>) -> Result<String, AllocError>
    ensures { IfOk result (λ text. string_bytes text ≡ InfoJson.number_or_null number) }
{
    let text = match number {
        Some(number) => format!(in alloc; "{number}")?,
        None => String::from_str(alloc, "null")?,
    };
    Ok(text)
}

/// A name in quotation marks, or `null`.
pub fn name_or_null(alloc: Global, name: Option<&str>) -> Result<String, AllocError>
    ensures { IfOk result (λ text. string_bytes text ≡ InfoJson.name_or_null (option_map (λ n. n.now) name.entry)) }
{
    let text = match name {
        Some(name) => format!(in alloc; "\"{name}\"")?,
        None => String::from_str(alloc, "null")?,
    };
    Ok(text)
}

/// A key and its bytes: as a text, as digits, or `null`.
pub fn bytes_field(alloc: Global, key: &str, bytes: Option<&[u8]>) -> Result<String, AllocError>
    ensures { IfOk result (λ text. string_bytes text ≡ InfoJson.bytes_field key.now (option_map (λ b. b.now) bytes.entry)) }
{
    let text = match bytes {
        Some(bytes) => text_field(alloc, key, bytes)?,
        None => format!(in alloc; "\"{key}\":null")?,
    };
    Ok(text)
}

// A key and its bytes: as a text in the character table that they select, if they are one without control characters,
// else as digits.
fn text_field(alloc: Global, key: &str, bytes: &[u8]) -> Result<String, AllocError>
    ensures { IfOk result (λ text. string_bytes text ≡ InfoJson.text_field key.now bytes.now (ShownTexts.shown_text bytes.now)) }
{
    let Some(text) = shown_text(alloc, bytes)? else {
        let field = hex_field(alloc, key, bytes)?;
        return Ok(field);
    };
    if is_harmless(text.as_bytes()) {
        let text = escaped(alloc, &text)?;
        let field = format!(in alloc; "\"{key}\":\"{text}\"")?;
        return Ok(field);
    }
    let field = hex_field(alloc, key, bytes)?;
    Ok(field)
}

// A key and its bytes as digits.
fn hex_field(alloc: Global, key: &str, bytes: &[u8]) -> Result<String, AllocError>
    ensures { IfOk result (λ text. string_bytes text ≡ InfoJson.hex_field key.now bytes.now) }
{
    let digits = hex::encode(alloc, bytes)?;
    let field = format!(in alloc; "\"{key}_hex\":\"{digits}\"")?;
    Ok(field)
}

/// Bytes in quotation marks: as a text, if they are one without control characters, else as digits.
pub fn text_or_hex(alloc: Global, bytes: &[u8]) -> Result<String, AllocError>
    ensures { IfOk result (λ text. string_bytes text ≡ InfoJson.text_or_hex bytes.now (text_that_is bytes.now)) }
{
    let Some(text) = text_of(bytes) else {
        let quoted = quoted_hex(alloc, bytes)?;
        return Ok(quoted);
    };
    if is_harmless(text.as_bytes()) {
        let text = escaped(alloc, text)?;
        let quoted = format!(in alloc; "\"{text}\"")?;
        return Ok(quoted);
    }
    let quoted = quoted_hex(alloc, bytes)?;
    Ok(quoted)
}

// Digits in quotation marks.
fn quoted_hex(alloc: Global, bytes: &[u8]) -> Result<String, AllocError>
    ensures { IfOk result (λ text. string_bytes text ≡ InfoJson.quoted_hex bytes.now) }
{
    let digits = hex_text(alloc, bytes)?;
    let quoted = format!(in alloc; "\"{digits}\"")?;
    Ok(quoted)
}

/// The bit rate of `part` packets among `whole` positions, or `null`.
pub fn rate_json(
    alloc: Global,
    rate: Option<u64>,
    part: u64,
    whole: u64,
) -> Result<String, AllocError>
    ensures { IfOk result (λ text. string_bytes text ≡ InfoJson.rate_json rate part whole) }
{
    let text = match rate_part(rate, part, whole) {
        Some(rate) => format!(in alloc; "{rate}")?,
        None => String::from_str(alloc, "null")?,
    };
    Ok(text)
}

/// How many packets there are, and their bit rate.
pub fn portion_json(alloc: Global, scene: &Scene, packets: u64) -> Result<String, AllocError>
    ensures { IfOk result (λ text. string_bytes text ≡ InfoJson.portion_json scene.now packets) }
{
    let rate = rate_json(alloc, scene.rate, packets, scene.extent)?;
    let text = format!(in alloc; "\"packets\":{packets},\"bitrate\":{rate}")?;
    Ok(text)
}

/// How many packets are scrambled, and how many have a faulty counter.
pub fn troubles_json(alloc: Global, numbers: &PidNumbers) -> Result<String, AllocError>
    ensures { IfOk result (λ text. string_bytes text ≡ InfoJson.troubles_json numbers.now) }
{
    let text = format!(in alloc;
        ",\"scrambled\":{},\"faults\":{}",
        numbers.scrambled, numbers.faults
    )?;
    Ok(text)
}
