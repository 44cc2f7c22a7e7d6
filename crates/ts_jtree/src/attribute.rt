//! Reading the attributes of an element.

ghost use Rattle.std.specs.Prelude.{◌≡◌, ◌++◌, ◌-◌, ◌^◌, ◌<◌, map, option_map, option_to_list, Some, IfOk, OnOk, IsTrue};
ghost use Rattle.std.specs.String.{string_bytes};
ghost use Rattle.serde_json.specs.Find.{get_member};
ghost use Rattle.serde_json.specs.View.{view, members_view};
ghost use Rattle.ts_fields.specs.Layout.{held, row, rows_of};
ghost use Rattle.ts_fields.specs.SoundRows.{is_sound, are_sound};
ghost use Rattle.ts_jtree.specs.declared.fault.JsonKind.TheVariants.{Missing};
ghost use Rattle.ts_jtree.specs.Attributes;
ghost use Rattle.ts_jtree.specs.Attributes.{within, in_range, number_in, number_attribute, flag_attribute, text_at, start_attribute, duration_attribute, language_attribute, hex_attribute, data_attribute, text_attribute, attribute_of};
ghost use Rattle.ts_jtree.specs.Faults.{Answers, or_refuse};

use crate::fault::{JsonKind, ReadRefusal, refuse_key};
use crate::number::{number_of_value, truth_of_value};
use serde_json::{Map, Value};
use std::alloc::{AllocError, AllocFailed, Global};
use ts_charsets::{bytes_by_table, text_table_named};
use ts_days::{start_of, time_of};
use ts_fields::{Field, FieldValue, Kind, are_printable, text_bytes};

/// The value at a key; none where the key is absent.
pub fn member<'a>(members: &'a Map<String, Value>, key: &str) -> Option<&'a Value>
    ensures { option_map (λ v. view v.now) result ≡ get_member key.now (members_view members.now.entries) }
{
    members.get(key)
}

/// The default number of an absent attribute; `Missing` where there is no default.
fn absent_number(alloc: Global, key: &str, absent: Option<u64>) -> Result<u64, ReadRefusal>
    ensures { Answers (λ n. n) result (or_refuse absent key.now Missing) }
{
    match absent {
        Some(number) => Ok(number),
        None => Err(refuse_key(alloc, key, JsonKind::Missing)),
    }
}

/// Whether a number lies in the range, where there is one.
fn is_within(range: Option<(u64, u64)>, number: u64) -> bool
    ensures { result ≡ within range number }
{
    match range {
        None => true,
        Some((least, most)) => least <= number && number <= most,
    }
}

/// The number where it is at most `widest` and in its range; else `OutOfRange`.
fn check_number(
    alloc: Global,
    key: &str,
    range: Option<(u64, u64)>,
    widest: u64,
    number: u64,
) -> Result<u64, ReadRefusal>
    ensures { Answers (λ n. n) result (in_range range widest key.now number) }
{
    if number > widest {
        return Err(refuse_key(alloc, key, JsonKind::OutOfRange));
    }
    if !is_within(range, number) {
        return Err(refuse_key(alloc, key, JsonKind::OutOfRange));
    }
    Ok(number)
}

/// The number that a value is, at most `widest` and in its range.
fn read_present(
    alloc: Global,
    key: &str,
    range: Option<(u64, u64)>,
    widest: u64,
    value: &Value,
) -> Result<u64, ReadRefusal>
    requires { widest < 2 ^ 63 }
    ensures { Answers (λ n. n) result (number_in range widest key.now (view value.now)) }
{
    let Some(number) = number_of_value(value) else {
        return Err(refuse_key(alloc, key, JsonKind::WrongKind));
    };
    check_number(alloc, key, range, widest, number)
}

/// The number at a key.
#[tactic(auto, unfolding(crate::specs::Attributes::number_attribute))]
fn read_number(
    alloc: Global,
    members: &Map<String, Value>,
    field: &Field,
    widest: u64,
) -> Result<u64, ReadRefusal>
    requires { widest < 2 ^ 63 }
    ensures { Answers (λ n. n) result
        (number_attribute field.now.absent field.now.range widest field.now.name.now
        (members_view members.now.entries)) }
{
    let Some(value) = member(members, field.name) else {
        return absent_number(alloc, field.name, field.absent);
    };
    read_present(alloc, field.name, field.range, widest, value)
}

/// The number of reserved bits at a key, `usual` where the key is absent.
#[tactic(auto, unfolding(crate::specs::Attributes::number_attribute))]
fn read_reserved(
    alloc: Global,
    members: &Map<String, Value>,
    field: &Field,
    usual: u64,
    widest: u64,
) -> Result<u64, ReadRefusal>
    requires { widest < 2 ^ 63 }
    ensures { Answers (λ n. n) result
        (number_attribute (Some usual) field.now.range widest field.now.name.now
        (members_view members.now.entries)) }
{
    let Some(value) = member(members, field.name) else {
        return Ok(usual);
    };
    read_present(alloc, field.name, field.range, widest, value)
}

/// The Boolean at a key, as a bit.
#[tactic(auto, unfolding(crate::specs::Attributes::flag_attribute))]
fn read_flag(alloc: Global, members: &Map<String, Value>, field: &Field) -> Result<u64, ReadRefusal>
    ensures { Answers (λ n. n) result (flag_attribute field.now.absent field.now.name.now
        (members_view members.now.entries)) }
{
    let Some(value) = member(members, field.name) else {
        return absent_number(alloc, field.name, field.absent);
    };
    match truth_of_value(value) {
        Some(bit) => Ok(bit),
        None => Err(refuse_key(alloc, field.name, JsonKind::WrongKind)),
    }
}

/// The text at a key.
#[tactic(auto, unfolding(crate::specs::Attributes::text_at))]
fn text_at<'a>(
    alloc: Global,
    members: &'a Map<String, Value>,
    key: &str,
) -> Result<&'a str, ReadRefusal>
    ensures { Answers (λ text. text.now) result
        (Attributes.text_at key.now (members_view members.now.entries)) }
{
    let Some(value) = member(members, key) else {
        return Err(refuse_key(alloc, key, JsonKind::Missing));
    };
    match value.as_str() {
        Some(text) => Ok(text),
        None => Err(refuse_key(alloc, key, JsonKind::WrongKind)),
    }
}

/// The start at a key.
#[tactic(auto, unfolding(crate::specs::Attributes::start_attribute))]
fn read_start(alloc: Global, members: &Map<String, Value>, key: &str) -> Result<u64, ReadRefusal>
    ensures { Answers (λ n. n) result (start_attribute key.now (members_view members.now.entries)) }
{
    let text = text_at(alloc, members, key)?;
    match start_of(text) {
        Some(number) => Ok(number),
        None => Err(refuse_key(alloc, key, JsonKind::WrongKind)),
    }
}

/// The duration at a key.
#[tactic(auto, unfolding(crate::specs::Attributes::duration_attribute))]
fn read_duration(alloc: Global, members: &Map<String, Value>, key: &str) -> Result<u64, ReadRefusal>
    ensures { Answers (λ n. n) result (duration_attribute key.now (members_view members.now.entries)) }
{
    let text = text_at(alloc, members, key)?;
    match time_of(99, text) {
        Some(number) => Ok(number),
        None => Err(refuse_key(alloc, key, JsonKind::WrongKind)),
    }
}

/// The three characters of a language or a country.
#[tactic(auto, unfolding(crate::specs::Attributes::language_attribute))]
fn read_language(
    alloc: Global,
    members: &Map<String, Value>,
    key: &str,
) -> Result<Vec<u8>, ReadRefusal>
    ensures { Answers (λ b. b.items) result (language_attribute key.now (members_view members.now.entries)) }
{
    let text = text_at(alloc, members, key)?;
    if text.len() != 3 {
        return Err(refuse_key(alloc, key, JsonKind::WrongKind));
    }
    if !are_printable(text.as_bytes()) {
        return Err(refuse_key(alloc, key, JsonKind::WrongKind));
    }
    Ok(Vec::from_slice(alloc, text.as_bytes())?)
}

/// The bytes that the hexadecimal digits at a key write; none where the key is absent.
#[tactic(auto, unfolding(crate::specs::Attributes::hex_attribute))]
fn read_hex(alloc: Global, members: &Map<String, Value>, key: &str) -> Result<Vec<u8>, ReadRefusal>
    ensures { Answers (λ b. b.items) result (hex_attribute key.now (members_view members.now.entries)) }
{
    let Some(value) = member(members, key) else {
        return Ok(Vec::new(alloc));
    };
    let Some(text) = value.as_str() else {
        return Err(refuse_key(alloc, key, JsonKind::WrongKind));
    };
    match hex::decode(alloc, text) {
        Ok(bytes) => Ok(bytes),
        Err(hex::FromHexError::OutOfMemory) => Err(ReadRefusal::NoMemory),
        Err(_) => Err(refuse_key(alloc, key, JsonKind::WrongKind)),
    }
}

/// The bytes that the hexadecimal digits at a key write, where their number is in the row's range.
#[tactic(auto, unfolding(crate::specs::Attributes::data_attribute))]
fn read_data(
    alloc: Global,
    members: &Map<String, Value>,
    key: &str,
    range: Option<(u64, u64)>,
) -> Result<Vec<u8>, ReadRefusal>
    ensures { Answers (λ b. b.items) result
        (data_attribute range key.now (members_view members.now.entries)) }
{
    let bytes = read_hex(alloc, members, key)?;
    if !is_within(range, bytes.len() as u64) {
        return Err(refuse_key(alloc, key, JsonKind::OutOfRange));
    }
    Ok(bytes)
}

/// The bytes of a text, given as text or as hexadecimal digits.
#[tactic(auto, unfolding(crate::specs::Attributes::text_attribute))]
fn read_text(alloc: Global, members: &Map<String, Value>, key: &str) -> Result<Vec<u8>, ReadRefusal>
    ensures { Answers (λ b. b.items) result (text_attribute key.now (members_view members.now.entries)) }
{
    let Some(value) = member(members, key) else {
        let hex_key = hex_key(alloc, key)?;
        return read_hex(alloc, members, &hex_key);
    };
    let Some(text) = value.as_str() else {
        return Err(refuse_key(alloc, key, JsonKind::WrongKind));
    };
    read_tabled(alloc, members, key, text)
}

/// The bytes of a text in the table that is named, or by the rule for texts without a table.
fn read_tabled(
    alloc: Global,
    members: &Map<String, Value>,
    key: &str,
    text: &str,
) -> Result<Vec<u8>, ReadRefusal>
    ensures { Answers (λ b. b.items) result (Attributes.tabled_at key.now text.now
        (get_member (Attributes.table_key key.now) (members_view members.now.entries))) }
{
    let table_key = table_key(alloc, key)?;
    let Some(value) = member(members, &table_key) else {
        return Ok(text_bytes(alloc, text)?);
    };
    let Some(name) = value.as_str() else {
        return Err(refuse_key(alloc, &table_key, JsonKind::WrongKind));
    };
    let Some(table) = text_table_named(name) else {
        return Err(refuse_key(alloc, &table_key, JsonKind::WrongKind));
    };
    match bytes_by_table(alloc, table, text)? {
        Some(bytes) => Ok(bytes),
        None => Err(refuse_key(alloc, key, JsonKind::OutOfRange)),
    }
}

/// The key for the name of a text's character table.
pub(crate) fn table_key(alloc: Global, key: &str) -> Result<String, AllocError>
    ensures { IfOk result (λ text. string_bytes text ≡ Attributes.table_key key.now) }
{
    let mut table_key = String::from_str(alloc, key)?;
    table_key.push_str("_table")?;
    Ok(table_key)
}

/// The key for the bytes of a text that JSON cannot show.
pub(crate) fn hex_key(alloc: Global, key: &str) -> Result<String, AllocError>
    ensures { IfOk result (λ text. string_bytes text ≡ Attributes.hex_key key.now) }
{
    let mut hex_key = String::from_str(alloc, key)?;
    hex_key.push_str("_hex")?;
    Ok(hex_key)
}

/// The value of a field by its attribute; none where it has none.
#[tactic(auto, unfolding(crate::specs::Attributes::attribute_of))]
fn read_attribute(
    alloc: Global,
    field: &Field,
    members: &Map<String, Value>,
) -> Result<Option<FieldValue>, ReadRefusal>
    requires { IsTrue (is_sound (row field.now).kind) }
    ensures { Answers (option_map held) result
        (Attributes.read_attribute (row field.now) (members_view members.now.entries)) }
{
    match field.kind {
        Kind::Ones(_) | Kind::Free(_) => Ok(None),
        Kind::Number(count) => {
            let number = read_number(alloc, members, field, (1 << count) - 1)?;
            Ok(Some(FieldValue::Number(number)))
        }
        Kind::Reserved(count) => {
            let ones = (1 << count) - 1;
            let number = read_reserved(alloc, members, field, ones, ones)?;
            Ok(Some(FieldValue::Number(number)))
        }
        Kind::Zeros(count) => {
            let number = read_reserved(alloc, members, field, 0, (1 << count) - 1)?;
            Ok(Some(FieldValue::Number(number)))
        }
        Kind::Flag => {
            let number = read_flag(alloc, members, field)?;
            Ok(Some(FieldValue::Number(number)))
        }
        Kind::Start => {
            let number = read_start(alloc, members, field.name)?;
            Ok(Some(FieldValue::Number(number)))
        }
        Kind::Duration => {
            let number = read_duration(alloc, members, field.name)?;
            Ok(Some(FieldValue::Number(number)))
        }
        Kind::Decimal(digits) => {
            let number = read_number(alloc, members, field, 10u64.pow(digits) - 1)?;
            Ok(Some(FieldValue::Number(number)))
        }
        Kind::Language => {
            let bytes = read_language(alloc, members, field.name)?;
            Ok(Some(FieldValue::Bytes(bytes)))
        }
        Kind::CountedText | Kind::Text => {
            let bytes = read_text(alloc, members, field.name)?;
            Ok(Some(FieldValue::Bytes(bytes)))
        }
        Kind::CountedHex | Kind::Hex => {
            let bytes = read_data(alloc, members, field.name, field.range)?;
            Ok(Some(FieldValue::Bytes(bytes)))
        }
    }
}

/// The values of the fields of some rows by their attributes, in the order of the rows; reserved bits are left
/// out.
pub fn read_attributes(
    alloc: Global,
    rows: &[Field],
    members: &Map<String, Value>,
) -> Result<Vec<FieldValue>, ReadRefusal>
    requires { IsTrue (are_sound (rows_of rows.now)) }
    ensures { Answers (λ v. map held v.items) result
        (Attributes.read_attributes (rows_of rows.now) (members_view members.now.entries)) }
{
    let mut values = Vec::new(alloc);
    for field in rows {
        let value = read_attribute(alloc, field, members)?;
        add(&mut values, value)?;
    }
    Ok(values)
}

/// Appends the value of a field, where its bits are not reserved.
fn add(
    values: &mut Vec<FieldValue>,
    value: Option<FieldValue>,
) -> Result<(), AllocFailed<FieldValue>>
    ensures { OnOk result (values.new.items ≡ values.old.items ++ option_to_list value) }
{
    if let Some(value) = value {
        values.push(value)?;
    }
    Ok(())
}
