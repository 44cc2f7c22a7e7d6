//! What may be at a place of a text of tables, by the pages of tables and descriptors.
use serde_json::Value;
use std::alloc::AllocError;
use ts_charsets::all_text_tables;
use ts_fields::{Field, Kind, Layout};
use ts_groups::FieldGroup;
use ts_item_forms::ItemForm;
use ts_json_tables::{short_layout_named, tot_fields};
use ts_shown_pages::{
    extension_groups_of, extension_named, extension_of, form_of, groups_of, layout_named, layout_of,
};
use ts_table_pages::{
    bat_layout, cat_layout, eit_layout, nit_layout, pat_layout, pmt_layout, sdt_layout,
};
use ts_table_rows::{LoopForm, TableLayout};

/// The names of an element and of those that it is in; empty where there is none, or it has none.
#[derive(Clone, Copy)]
pub(crate) struct Place<'a> {
    pub(crate) name: &'a str,
    pub(crate) parent: &'a str,
    pub(crate) above: &'a str,
}

fn name_of(element: &Value) -> &str {
    match element.get("#name") {
        Some(name) => name.as_str().unwrap_or(""),
        None => "",
    }
}

fn child(element: &Value, number: usize) -> Option<&Value> {
    element.get("#nodes")?.get(number)
}

/// The element to which a path leads.
pub(crate) fn place_of<'a>(root: &'a Value, path: &[usize]) -> Place<'a> {
    let mut element = Some(root);
    let mut place = Place {
        name: name_of(root),
        parent: "",
        above: "",
    };
    for number in path {
        element = match element {
            Some(element) => child(element, *number),
            None => None,
        };
        place = Place {
            name: match element {
                Some(element) => name_of(element),
                None => "",
            },
            parent: place.name,
            above: place.parent,
        };
    }
    place
}

// The tables that have an element of their own.
fn table_named(name: &str) -> Option<&'static TableLayout> {
    match name {
        "PAT" => Some(pat_layout()),
        "CAT" => Some(cat_layout()),
        "PMT" => Some(pmt_layout()),
        "NIT" => Some(nit_layout()),
        "BAT" => Some(bat_layout()),
        "SDT" => Some(sdt_layout()),
        "EIT" => Some(eit_layout()),
        _ => None,
    }
}

// The page of a descriptor, or of a table of the short form.
fn page_named(name: &str) -> Option<&'static Layout> {
    if let Some(page) = layout_named(name) {
        return Some(page);
    }
    match extension_named(name) {
        Some(page) => Some(page),
        None => short_layout_named(name),
    }
}

// The form of the items of a descriptor, whose first fields say which others they have, or which have items in them.
fn form_named(name: &str) -> Option<&'static ItemForm> {
    match layout_named(name) {
        Some(page) => form_of(page.tag),
        None => None,
    }
}

// The form of the element of this name, where it is such an item.
fn form_at(name: &str, parent: &str) -> Option<&'static ItemForm> {
    match form_named(parent) {
        Some(form) if form.name == name => Some(form),
        _ => None,
    }
}

// The rows of an element that is an item of a descriptor with such items, or an item in one of them.
fn formed_rows(place: Place<'_>) -> &'static [Field] {
    if let Some(form) = form_at(place.name, place.parent) {
        return form.head;
    }
    if let Some(form) = form_at(place.parent, place.above) {
        if let Some(items) = form.inner {
            if items.name == place.name {
                return items.rows;
            }
        }
    }
    &[]
}

// The rows of an element that is an item of a table or of a descriptor.
fn item_rows(place: Place<'_>) -> &'static [Field] {
    if let Some(table) = table_named(place.parent) {
        if let Some(items) = table.items {
            if items.name == place.name {
                return items.rows;
            }
        }
    }
    if let Some(page) = page_named(place.parent) {
        if let Some(items) = page.items {
            if items.name == place.name {
                return items.rows;
            }
        }
    }
    formed_rows(place)
}

// The rows of an element, in two parts.
fn rows_of(place: Place<'_>) -> (&'static [Field], &'static [Field]) {
    if let Some(table) = table_named(place.name) {
        return (table.common, table.head);
    }
    if place.name == "TOT" {
        return (tot_fields(), &[]);
    }
    match page_named(place.name) {
        Some(page) => (page.head, &[]),
        None => (item_rows(place), &[]),
    }
}

// The groups of further fields of a descriptor or of an item of one, which are there by the values of others.
fn groups_at(place: Place<'_>) -> &'static [FieldGroup] {
    if let Some(form) = form_at(place.name, place.parent) {
        return form.groups;
    }
    let groups = if let Some(page) = layout_named(place.name) {
        groups_of(page.tag)
    } else if let Some(page) = extension_named(place.name) {
        extension_groups_of(page.tag)
    } else {
        None
    };
    match groups {
        Some(groups) => groups,
        None => &[],
    }
}

// Puts the keys of a table that its rows do not name.
fn put_table_keys(text: &mut String, table: &TableLayout) -> Result<(), AllocError> {
    text.push_str(" version current")?;
    match table.ids {
        [range] if range.0 == range.1 => {}
        [_] => text.push_str(" table_id")?,
        _ => text.push_str(" actual")?,
    }
    if !table.extension.is_empty() {
        write!(text, " {}", table.extension)?;
    }
    if table.keeps_numbers {
        text.push_str(" section_number last_section_number")?;
    }
    if table.one_zero {
        text.push_str(" network_PID")?;
    }
    Ok(())
}

// Puts the names of rows.
fn put_names(text: &mut String, rows: &[Field]) -> Result<(), AllocError> {
    for row in rows {
        if !row.name.is_empty() {
            write!(text, " {}", row.name)?;
        }
    }
    Ok(())
}

// Puts the names of fields that may be there; those that are there by the value of another one are in brackets.
fn put_grouped_names(text: &mut String, groups: &[FieldGroup]) -> Result<(), AllocError> {
    for group in groups {
        if group.when.is_some() {
            text.push_str(" (by another field:")?;
            put_names(text, group.rows)?;
            text.push(')')?;
        } else {
            put_names(text, group.rows)?;
        }
    }
    Ok(())
}

/// Puts a line with the keys that an element may have; nothing where its pages do not tell them.
pub(crate) fn put_known_keys(text: &mut String, place: Place<'_>) -> Result<(), AllocError> {
    let table = table_named(place.name);
    let (first, later) = rows_of(place);
    if table.is_none() && first.is_empty() {
        return Ok(());
    }
    text.push_str("known here:")?;
    if let Some(table) = table {
        put_table_keys(text, table)?;
    }
    put_names(text, first)?;
    put_names(text, later)?;
    put_grouped_names(text, groups_at(place))?;
    text.push('\n')
}

// Whether descriptors may be in the element in which this one is.
fn may_have_descriptors(place: Place<'_>) -> bool {
    if place.parent == "TOT" {
        return true;
    }
    if let Some(table) = table_named(place.parent) {
        return table.loop_form != LoopForm::Absent;
    }
    match table_named(place.above) {
        Some(table) => {
            match table.items {
                Some(items) => items.described && items.name == place.parent,
                None => false,
            }
        }
        None => false,
    }
}

// The name of the items that may be in an element, which is in the one of another name; nothing where none may.
fn item_name(parent: &str, above: &str) -> &'static str {
    if let Some(table) = table_named(parent) {
        if let Some(items) = table.items {
            return items.name;
        }
    }
    if let Some(page) = page_named(parent) {
        if let Some(items) = page.items {
            return items.name;
        }
    }
    if let Some(form) = form_named(parent) {
        return form.name;
    }
    match form_at(parent, above) {
        Some(form) => match form.inner {
            Some(items) => items.name,
            None => "",
        },
        None => "",
    }
}

// Puts the names of descriptors, those of extension descriptors last.
fn put_descriptors(text: &mut String) -> Result<(), AllocError> {
    text.push_str(" generic_descriptor")?;
    for tag in 0..=255 {
        if let Some(page) = layout_of(tag) {
            write!(text, " {}", page.name)?;
        }
    }
    for tag in 0..=255 {
        if let Some(page) = extension_of(tag) {
            write!(text, " {}", page.name)?;
        }
    }
    Ok(())
}

/// Puts a line with the elements that may be where this one is; nothing where none may.
pub(crate) fn put_known_elements(text: &mut String, place: Place<'_>) -> Result<(), AllocError> {
    if place.parent == "tsduck" {
        return text.push_str(
            "known here: PAT CAT PMT NIT BAT SDT EIT TDT RST TOT generic_short_table generic_long_table\n",
        );
    }
    let item = item_name(place.parent, place.above);
    let described = may_have_descriptors(place);
    if item.is_empty() && !described {
        return Ok(());
    }
    text.push_str("known here:")?;
    if !item.is_empty() {
        write!(text, " {item}")?;
    }
    if described {
        put_descriptors(text)?;
    }
    text.push('\n')
}

// Puts how a value of a field has to be written.
fn put_kind(text: &mut String, row: &Field) -> Result<(), AllocError> {
    match row.kind {
        Kind::Number(bits) | Kind::Reserved(bits) | Kind::Zeros(bits) => {
            let most = 1u64.checked_shl(bits).unwrap_or(0).saturating_sub(1);
            let (least, most) = row.range.unwrap_or((0, most));
            write!(text, "a number from {least} to {most}")?;
            if row.name == "running_status" {
                text.push_str(": 1 not running, 2 starts soon, 3 pausing, 4 running, 5 off-air")?;
            }
            Ok(())
        }
        Kind::Decimal(digits) => write!(text, "a number of at most {digits} decimal digits"),
        Kind::Flag => text.push_str("true or false"),
        Kind::Start => text.push_str("a text as \"2026-11-29 20:15:00\", or \"undefined\""),
        Kind::Duration => text.push_str("a text as \"01:45:00\""),
        Kind::Language => text.push_str("a text of three characters, as \"eng\""),
        Kind::CountedText | Kind::Text => text.push_str("a text"),
        Kind::CountedHex | Kind::Hex => text.push_str("a text of two hexadecimal digits a byte"),
        Kind::Ones(_) | Kind::Free(_) => Ok(()),
    }
}

// The row of this name.
fn row_named<'a>(rows: &'a [Field], name: &str) -> Option<&'a Field> {
    for row in rows {
        if row.name == name {
            return Some(row);
        }
    }
    None
}

// The row of this name in groups of fields.
fn grouped_row_named(groups: &'static [FieldGroup], name: &str) -> Option<&'static Field> {
    for group in groups {
        if let Some(row) = row_named(group.rows, name) {
            return Some(row);
        }
    }
    None
}

/// Puts a line with the form of the value of a key; nothing where the pages do not tell it.
pub(crate) fn put_form(text: &mut String, place: Place<'_>, key: &str) -> Result<(), AllocError> {
    let (first, later) = rows_of(place);
    let found = match row_named(first, key) {
        Some(row) => Some(row),
        None => row_named(later, key),
    };
    let found = match found {
        Some(row) => Some(row),
        None => grouped_row_named(groups_at(place), key),
    };
    match found {
        Some(row) if !key.is_empty() => {
            write!(text, "{key}: ")?;
            put_kind(text, row)?;
            text.push('\n')
        }
        _ => put_tables(text, first, later, key),
    }
}

// Whether a row of this name is a text.
fn is_text(rows: &[Field], name: &str) -> bool {
    match row_named(rows, name) {
        Some(row) => match row.kind {
            Kind::CountedText | Kind::Text => true,
            _ => false,
        },
        None => false,
    }
}

// Puts a line with the names of all character tables, where the key is that of the table of a text.
fn put_tables(
    text: &mut String,
    first: &[Field],
    later: &[Field],
    key: &str,
) -> Result<(), AllocError> {
    let Some(name) = key.strip_suffix("_table") else {
        return Ok(());
    };
    if !is_text(first, name) && !is_text(later, name) {
        return Ok(());
    }
    write!(text, "{key}: one of")?;
    for table in all_text_tables() {
        write!(text, " {}", table.name)?;
    }
    text.push('\n')
}
