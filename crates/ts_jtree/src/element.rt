//! Reading an element, step by step.
//!
//! There is no type `Element` that is asked for one attribute after another: `read_element` checks a whole element
//! against the rows of its fields and gives their values, in the order of the rows, or the first fault. What is beside
//! it (`members`, `element_name`, `check_keys`, `children`) is for elements whose name has to be known before their
//! rows are. So the order of faults is defined and proved once, and not in each reader of a table or descriptor.

ghost use Rattle.std.specs.Prelude.{◌≡◌, ◌||◌, [], map, IsTrue, is_none, bytes_eq};
ghost use Rattle.serde_json.specs.View.{view, items_view, members_view};
ghost use Rattle.ts_fields.specs.Layout.{held, row, rows_of};
ghost use Rattle.ts_fields.specs.SoundRows.{are_sound};
ghost use Rattle.ts_jtree.specs.Attributes;
ghost use Rattle.ts_jtree.specs.Elements;
ghost use Rattle.ts_jtree.specs.Elements.{members_of, name_of, names_field, names_some, is_known, keys_known, nodes_of, named, read_stranger};
ghost use Rattle.ts_jtree.specs.Faults.{Answers, Stops};

use crate::attribute::{member, read_attributes};
use crate::fault::{JsonKind, ReadRefusal, at_child, refuse_key};
use serde_json::{Map, Value};
use std::alloc::Global;
use ts_fields::{Field, FieldValue, Kind};

/// The key of an element's name.
pub(crate) const NAME: &str = "#name";

/// The key of an element's children.
pub(crate) const NODES: &str = "#nodes";

/// The members of an element: `WrongKind` on `#name` where the value is not an object.
pub fn members(alloc: Global, value: &Value) -> Result<&Map<String, Value>, ReadRefusal>
    ensures { Answers (λ m. members_view m.now.entries) result (members_of (view value.now)) }
{
    match value.as_object() {
        Some(members) => Ok(members),
        None => Err(refuse_key(alloc, NAME, JsonKind::WrongKind)),
    }
}

/// The name of an element: `Missing` on `#name` where it has none, `WrongKind` where the name is not a text.
#[tactic(auto, unfolding(crate::specs::Elements::name_of))]
pub fn element_name(alloc: Global, members: &Map<String, Value>) -> Result<&str, ReadRefusal>
    ensures { Answers (λ name. name.now) result (name_of (members_view members.now.entries)) }
{
    let Some(value) = member(members, NAME) else {
        return Err(refuse_key(alloc, NAME, JsonKind::Missing));
    };
    match value.as_str() {
        Some(name) => Ok(name),
        None => Err(refuse_key(alloc, NAME, JsonKind::WrongKind)),
    }
}

/// Checks that the name is the one that may stand here; else `UnknownKey` on `#name`.
pub fn check_name(alloc: Global, wanted: &str, name: &str) -> Result<(), ReadRefusal>
    ensures { Answers (λ _. []) result (named wanted.now name.now) }
{
    if name != wanted {
        return Err(refuse_key(alloc, NAME, JsonKind::UnknownKey));
    }
    Ok(())
}

/// Checks that every key is known; else `UnknownKey` on the first that is not, in byte order.
pub fn check_keys(
    alloc: Global,
    rows: &[Field],
    members: &Map<String, Value>,
) -> Result<(), ReadRefusal>
    ensures { Answers (λ _. []) result
        (keys_known (rows_of rows.now) (members_view members.now.entries)
        (members_view members.now.entries)) }
{
    for (key, _) in members.iter() {
        if !is_known_key(rows, members, key) {
            return Err(refuse_key(alloc, key, JsonKind::UnknownKey));
        }
    }
    Ok(())
}

/// Whether a key is known in an element with these rows.
fn is_known_key(rows: &[Field], members: &Map<String, Value>, key: &str) -> bool
    ensures { result ≡ is_known (rows_of rows.now) (members_view members.now.entries) key.now }
{
    key == NAME || key == NODES || is_some_field_key(rows, members, key)
}

/// Whether a key belongs to one of these rows.
fn is_some_field_key(rows: &[Field], members: &Map<String, Value>, key: &str) -> bool
    ensures { result ≡ names_some (rows_of rows.now) (members_view members.now.entries) key.now }
{
    for field in rows {
        if is_field_key(field, members, key) {
            return true;
        }
    }
    false
}

/// Whether a key belongs to a field.
fn is_field_key(field: &Field, members: &Map<String, Value>, key: &str) -> bool
    ensures { result
        ≡ names_field (row field.now).kind (row field.now).name (members_view members.now.entries) key.now }
{
    match field.kind {
        Kind::Ones(_) | Kind::Free(_) => false,
        Kind::CountedText | Kind::Text => {
            key == field.name
                || (is_hex_key(field.name, key) && member(members, field.name).is_none())
                || (is_table_key(field.name, key) && !member(members, field.name).is_none())
        }
        _ => key == field.name,
    }
}

/// Whether a key is the one for the bytes of the text with this name.
fn is_hex_key(name: &str, key: &str) -> bool
    ensures { result ≡ bytes_eq key.now (Attributes.hex_key name.now) }
{
    let key = key.as_bytes();
    if key.len() < name.len() {
        return false;
    }
    let (front, back) = key.split_at(name.len());
    if front != name.as_bytes() {
        return false;
    }
    back == b"_hex".as_slice()
}

/// Whether a key is the one for the table of the text with this name.
fn is_table_key(name: &str, key: &str) -> bool
    ensures { result ≡ bytes_eq key.now (Attributes.table_key name.now) }
{
    let key = key.as_bytes();
    if key.len() < name.len() {
        return false;
    }
    let (front, back) = key.split_at(name.len());
    if front != name.as_bytes() {
        return false;
    }
    back == b"_table".as_slice()
}

/// The children of an element, none where `#nodes` is absent: `WrongKind` on `#nodes` where it is not an array.
#[tactic(auto, unfolding(crate::specs::Elements::nodes_of))]
pub fn children(alloc: Global, members: &Map<String, Value>) -> Result<&[Value], ReadRefusal>
    ensures { Answers (λ nodes. items_view nodes.now) result (nodes_of (members_view members.now.entries)) }
{
    let Some(value) = member(members, NODES) else {
        return Ok(&[]);
    };
    match value.as_array() {
        Some(nodes) => Ok(nodes.as_slice()),
        None => Err(refuse_key(alloc, NODES, JsonKind::WrongKind)),
    }
}

/// Why a child is refused where no child may stand.
#[tactic(auto, unfolding(crate::specs::Elements::read_stranger))]
fn refuse_stranger(alloc: Global, value: &Value) -> ReadRefusal
    ensures { Stops result (read_stranger (view value.now)) }
{
    let members = match members(alloc, value) {
        Ok(members) => members,
        Err(refusal) => return refusal,
    };
    match element_name(alloc, members) {
        Ok(_) => refuse_key(alloc, NAME, JsonKind::UnknownKey),
        Err(refusal) => refusal,
    }
}

/// Checks that there are no children; else the first of them is refused.
pub fn no_children(alloc: Global, nodes: &[Value]) -> Result<(), ReadRefusal>
    ensures { Answers (λ _. []) result (Elements.no_children (items_view nodes.now)) }
{
    let Some(value) = nodes.first() else {
        return Ok(());
    };
    Err(at_child(alloc, 0, refuse_stranger(alloc, value)))
}

/// The values of an element of this name, in the order of the rows, and its children, which are still to be
/// checked. The steps come in this order: an object, its name, the name that may stand here, known keys, the
/// attributes one after another, children that are an array.
#[tactic(auto, unfolding(crate::specs::Elements::read_element))]
pub fn read_element<'a>(
    alloc: Global,
    wanted: &str,
    rows: &[Field],
    value: &'a Value,
) -> Result<(Vec<FieldValue>, &'a [Value]), ReadRefusal>
    requires { IsTrue (are_sound (rows_of rows.now)) }
    ensures { Answers (λ x. (map held x.0.items, items_view x.1.now)) result
        (Elements.read_element wanted.now (rows_of rows.now) (view value.now)) }
{
    let members = members(alloc, value)?;
    let name = element_name(alloc, members)?;
    check_name(alloc, wanted, name)?;
    check_keys(alloc, rows, members)?;
    let values = read_attributes(alloc, rows, members)?;
    let nodes = children(alloc, members)?;
    Ok((values, nodes))
}
