//! Writing elements.

ghost use Rattle.std.specs.Prelude.{◌≡◌, map, slice_get, option_map, IfOk, OnOk, Some, None, true};
ghost use Rattle.hex.specs.Hex.{encode_lower};
ghost use Rattle.serde_json.specs.Data.{object, put, string};
ghost use Rattle.serde_json.specs.View.{view, members_view};
ghost use Rattle.ts_fields.specs.Layout.{held, row, rows_of};
ghost use Rattle.ts_fields.specs.Layout as rows;
ghost use Rattle.ts_days.specs.TimeTexts;
ghost use Rattle.ts_fields.specs.Reading;
ghost use Rattle.ts_charsets.specs.TextTables.{tabled_text};
ghost use Rattle.ts_jtree.specs.Shown;
ghost use Rattle.ts_jtree.specs.Elements.{name_key};
ghost use Rattle.ts_jtree.specs.Shown.{element_members, put_attribute, put_attributes, put_nodes};

use crate::attribute::{hex_key, table_key};
use crate::element::{NAME, NODES};
use serde_json::{Map, Value};
use std::alloc::{AllocError, Global};
use ts_charsets::tabled_text;
use ts_days::{start_text, time_text};
use ts_fields::{Field, FieldValue, Kind, text_of};

/// Puts a value at a key, in place of one that is there.
pub fn put_member(
    alloc: Global,
    members: &mut Map<String, Value>,
    key: &str,
    value: Value,
) -> Result<(), AllocError>
    ensures { OnOk result
        (members_view members.new.entries ≡ put key.now (view value) (members_view members.old.entries)) }
{
    members.insert(String::from_str(alloc, key)?, value)?;
    Ok(())
}

/// Puts a text at a key.
pub fn put_text(
    alloc: Global,
    members: &mut Map<String, Value>,
    key: &str,
    text: &str,
) -> Result<(), AllocError>
    ensures { OnOk result (members_view members.new.entries
        ≡ put key.now (string text.now) (members_view members.old.entries)) }
{
    let text = String::from_str(alloc, text)?;
    put_member(alloc, members, key, Value::String(text))
}

/// Puts bytes at a key as lower case hexadecimal digits.
fn put_hex(
    alloc: Global,
    members: &mut Map<String, Value>,
    key: &str,
    bytes: &[u8],
) -> Result<(), AllocError>
    ensures { OnOk result (members_view members.new.entries
        ≡ Shown.put_hex key.now bytes.now (members_view members.old.entries)) }
{
    let text = hex::encode(alloc, bytes)?;
    put_member(alloc, members, key, Value::String(text))
}

/// Whether a number is so many ones; never for more than 63.
fn are_ones(count: u32, number: u64) -> bool
    ensures { result ≡ Shown.are_ones count number }
{
    count < 64 && number == (1 << count) - 1
}

/// Puts the bytes of a language at a key as a text.
fn put_language(
    alloc: Global,
    members: &mut Map<String, Value>,
    key: &str,
    bytes: &[u8],
) -> Result<(), AllocError>
    requires { Reading.are_printable bytes.now ≡ true }
    ensures { OnOk result (members_view members.new.entries
        ≡ put key.now (string bytes.now) (members_view members.old.entries)) }
{
    let Some(text) = text_of(bytes) else {
        unreachable!()
    };
    put_text(alloc, members, key, text)
}

/// Puts the start of an event at a key.
fn put_start(
    alloc: Global,
    members: &mut Map<String, Value>,
    key: &str,
    number: u64,
) -> Result<(), AllocError>
    ensures { OnOk result (members_view members.new.entries
        ≡ put key.now (string (TimeTexts.start_text number)) (members_view members.old.entries)) }
{
    let text = start_text(alloc, number)?;
    put_member(alloc, members, key, Value::String(text))
}

/// Puts the bytes of a text at a key: as a text where they are one by themselves, or else in the table that they select,
/// or else at the key for bytes.
fn put_text_or_hex(
    alloc: Global,
    members: &mut Map<String, Value>,
    key: &str,
    bytes: &[u8],
) -> Result<(), AllocError>
    ensures { OnOk result (members_view members.new.entries
        ≡ Shown.put_text key.now bytes.now (members_view members.old.entries)) }
{
    if let Some(text) = text_of(bytes) {
        return put_text(alloc, members, key, text);
    }
    put_tabled_or_hex(alloc, members, key, bytes)
}

/// Puts bytes that are no text by themselves: in the table that they select, or else at the key for bytes.
fn put_tabled_or_hex(
    alloc: Global,
    members: &mut Map<String, Value>,
    key: &str,
    bytes: &[u8],
) -> Result<(), AllocError>
    ensures { OnOk result (members_view members.new.entries
        ≡ Shown.put_text_of None (tabled_text bytes.now) key.now bytes.now (members_view members.old.entries)) }
{
    let Some((name, text)) = tabled_text(alloc, bytes)? else {
        let hex_key = hex_key(alloc, key)?;
        return put_hex(alloc, members, &hex_key, bytes);
    };
    let table_key = table_key(alloc, key)?;
    put_member(alloc, members, key, Value::String(text))?;
    put_text(alloc, members, &table_key, name)
}

/// Puts the attribute of a field with this number.
#[tactic(auto, unfolding(crate::specs::Shown::put_attribute))]
fn show_number(
    alloc: Global,
    members: &mut Map<String, Value>,
    field: &Field,
    number: u64,
) -> Result<(), AllocError>
    ensures { OnOk result (members_view members.new.entries
        ≡ put_attribute (row field.now).kind (row field.now).name (Some (rows.number number))
        (members_view members.old.entries)) }
{
    match field.kind {
        Kind::Flag => put_member(alloc, members, field.name, Value::Bool(number == 1)),
        Kind::Number(_) | Kind::Decimal(_) => {
            put_member(alloc, members, field.name, Value::from(number))
        }
        Kind::Reserved(count) if are_ones(count, number) => Ok(()),
        Kind::Zeros(_) if number == 0 => Ok(()),
        Kind::Reserved(_) | Kind::Zeros(_) => {
            put_member(alloc, members, field.name, Value::from(number))
        }
        Kind::Start => put_start(alloc, members, field.name, number),
        Kind::Duration => put_text(alloc, members, field.name, time_text(number).as_str()),
        _ => Ok(()),
    }
}

/// Puts the attribute of a field with these bytes.
#[tactic(auto, unfolding(crate::specs::Shown::put_attribute))]
fn show_bytes(
    alloc: Global,
    members: &mut Map<String, Value>,
    field: &Field,
    bytes: &[u8],
) -> Result<(), AllocError>
    requires { Shown.is_shown (row field.now).kind (Some (rows.bytes bytes.now)) ≡ true }
    ensures { OnOk result (members_view members.new.entries
        ≡ put_attribute (row field.now).kind (row field.now).name (Some (rows.bytes bytes.now))
        (members_view members.old.entries)) }
{
    match field.kind {
        Kind::Language => put_language(alloc, members, field.name, bytes),
        Kind::CountedText | Kind::Text => put_text_or_hex(alloc, members, field.name, bytes),
        Kind::CountedHex | Kind::Hex => put_hex(alloc, members, field.name, bytes),
        _ => Ok(()),
    }
}

/// Puts the attribute of a field with this value.
fn show_attribute(
    alloc: Global,
    members: &mut Map<String, Value>,
    field: &Field,
    value: Option<&FieldValue>,
) -> Result<(), AllocError>
    requires { Shown.is_shown (row field.now).kind (option_map (λ v. held v.now) value) ≡ true }
    ensures { OnOk result (members_view members.new.entries
        ≡ put_attribute (row field.now).kind (row field.now).name (option_map (λ v. held v.now) value.entry)
        (members_view members.old.entries)) }
{
    match value {
        Some(FieldValue::Number(number)) => show_number(alloc, members, field, *number),
        Some(FieldValue::Bytes(bytes)) => show_bytes(alloc, members, field, bytes),
        None => Ok(()),
    }
}

/// Puts the attributes of some rows with these values, in the order of the rows; defaults are put too.
pub fn show_attributes(
    alloc: Global,
    members: &mut Map<String, Value>,
    rows: &[Field],
    values: &[FieldValue],
) -> Result<(), AllocError>
    requires { Shown.are_shown (rows_of rows.now) (map held values.now) ≡ true }
    ensures { OnOk result (members_view members.new.entries
        ≡ put_attributes (rows_of rows.now) (map held values.now) (members_view members.old.entries)) }
{
    let mut next = 0;
    for field in rows {
        show_attribute(alloc, members, field, value_at(values, next))?;
        next += field.kind.holds();
    }
    Ok(())
}

/// The value at a place; none past the end.
fn value_at(values: &[FieldValue], place: usize) -> Option<&FieldValue>
    ensures { option_map (λ v. v.now) result ≡ slice_get values.now place }
{
    values.get(place)
}

/// Puts what an element has as its children, where it may have some.
fn put_children(
    alloc: Global,
    members: &mut Map<String, Value>,
    nodes: Option<Value>,
) -> Result<(), AllocError>
    ensures { OnOk result (members_view members.new.entries
        ≡ put_nodes (option_map view nodes) (members_view members.old.entries)) }
{
    match nodes {
        Some(nodes) => put_member(alloc, members, NODES, nodes),
        None => Ok(()),
    }
}

/// Puts the name, the children and the attributes of an element, in this order.
fn put_element(
    alloc: Global,
    members: &mut Map<String, Value>,
    name: &str,
    rows: &[Field],
    values: &[FieldValue],
    nodes: Option<Value>,
) -> Result<(), AllocError>
    requires { Shown.are_shown (rows_of rows.now) (map held values.now) ≡ true }
    ensures { OnOk result (members_view members.new.entries
        ≡ put_attributes (rows_of rows.now) (map held values.now)
        (put_nodes (option_map view nodes) (put name_key (string name.now) (members_view members.old.entries)))) }
{
    put_text(alloc, members, NAME, name)?;
    put_children(alloc, members, nodes)?;
    show_attributes(alloc, members, rows, values)
}

/// The element of this name, with these rows, values and children.
pub fn element_json(
    alloc: Global,
    name: &str,
    rows: &[Field],
    values: &[FieldValue],
    nodes: Option<Value>,
) -> Result<Value, AllocError>
    requires { Shown.are_shown (rows_of rows.now) (map held values.now) ≡ true }
    ensures { IfOk result (λ v. view v
        ≡ object (element_members (rows_of rows.now) name.now (option_map view nodes) (map held values.now))) }
{
    let mut members = Map::new(alloc);
    put_element(alloc, &mut members, name, rows, values, nodes)?;
    Ok(Value::Object(members))
}
