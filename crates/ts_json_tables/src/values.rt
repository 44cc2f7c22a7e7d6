//! The values of the attributes of a table's element, in order.

ghost use Rattle.std.specs.Prelude.{◌≡◌, ◌++◌, ◌∷◌, [], map, take, drop, IfOk, OnOk, if◌then◌else◌, Some, None};
ghost use Rattle.ts_fields.specs.Layout.{held, number};
ghost use Rattle.ts_table_rows.specs.BodyReading.{is_zero};
ghost use Rattle.ts_table_rows.specs.BodyReading as body;
ghost use Rattle.ts_table_rows.specs.TablePages.{table_page};
ghost use Rattle.ts_table_rows.specs.TableValues.{item_held, table_held};
ghost use Rattle.ts_json_tables.specs.ElementRows;
ghost use Rattle.ts_json_tables.specs.HeldTables.{long_held, short_held};
ghost use Rattle.ts_json_tables.specs.TableElements;
ghost use Rattle.ts_json_tables.specs.TableElements.{extension_values, id_values, kept_values, network_values, truth};

use crate::table::{LongTable, ShortTable};
use std::alloc::{AllocError, Global};
use ts_fields::FieldValue;
use ts_table_rows::{TableItem, TableLayout, held_count};

/// Appends a number.
fn push_number(values: &mut Vec<FieldValue>, value: u64) -> Result<(), AllocError>
    ensures { OnOk result (map held values.new.items ≡ map held values.old.items ++ number value ∷ []) }
{
    values.push(FieldValue::Number(value))?;
    Ok(())
}

/// Appends a Boolean.
fn push_truth(values: &mut Vec<FieldValue>, value: bool) -> Result<(), AllocError>
    ensures { OnOk result (map held values.new.items ≡ map held values.old.items ++ truth value ∷ []) }
{
    push_number(values, u64::from(value))
}

/// A copy of the value.
fn copy_of(alloc: Global, value: &FieldValue) -> Result<FieldValue, AllocError>
    ensures { IfOk result (λ v. held v ≡ held value.now) }
{
    match value {
        FieldValue::Number(number) => Ok(FieldValue::Number(*number)),
        FieldValue::Bytes(bytes) => Ok(FieldValue::Bytes(Vec::from_slice(alloc, bytes)?)),
    }
}

/// Appends copies of these values.
fn push_copies(
    alloc: Global,
    values: &mut Vec<FieldValue>,
    from: &[FieldValue],
) -> Result<(), AllocError>
    ensures { OnOk result (map held values.new.items ≡ map held values.old.items ++ map held from.now) }
{
    for value in from {
        let copy = copy_of(alloc, value)?;
        values.push(copy)?;
    }
    Ok(())
}

/// Appends the value for the table_id of a table, where it needs one.
fn push_id(values: &mut Vec<FieldValue>, ids: &[(u8, u8)], id: u8) -> Result<(), AllocError>
    ensures { OnOk result (map held values.new.items ≡ map held values.old.items ++ id_values ids.now id) }
{
    match ids {
        [] => Ok(()),
        [range] => {
            if range.0 == range.1 {
                return Ok(());
            }
            push_number(values, u64::from(id))
        }
        [first, ..] => push_truth(values, id == first.0),
    }
}

/// Appends table_id_extension, where it is not reserved.
fn push_extension(
    values: &mut Vec<FieldValue>,
    name: &str,
    extension: u16,
) -> Result<(), AllocError>
    ensures { OnOk result
        (map held values.new.items ≡ map held values.old.items ++ extension_values name.now extension) }
{
    if name.is_empty() {
        return Ok(());
    }
    push_number(values, u64::from(extension))
}

/// Appends the section numbers, where they are kept.
fn push_kept(values: &mut Vec<FieldValue>, numbers: Option<(u8, u8)>) -> Result<(), AllocError>
    ensures { OnOk result (map held values.new.items ≡ map held values.old.items ++ kept_values numbers) }
{
    let Some((first, last)) = numbers else {
        return Ok(());
    };
    push_number(values, u64::from(first))?;
    push_number(values, u64::from(last))
}

/// Whether the first value of an item is the number 0.
pub fn is_zero(item: &TableItem) -> bool
    ensures { result ≡ body.is_zero (body.first_number (item_held item.now).values) }
{
    match item.values.as_slice() {
        [FieldValue::Number(number), ..] => *number == 0,
        _ => false,
    }
}

/// Whether the first item has the number 0, in a table that may have such an item.
pub fn begins_with_zero(one_zero: bool, items: &[TableItem]) -> bool
    ensures { result ≡ TableElements.begins_with_zero one_zero (map item_held items.now) }
{
    match items {
        [] => false,
        [first, ..] => one_zero && is_zero(first),
    }
}

/// Appends the values after the 0 of the first item, which has the number 0.
fn push_network(
    alloc: Global,
    values: &mut Vec<FieldValue>,
    one_zero: bool,
    items: &[TableItem],
) -> Result<(), AllocError>
    ensures { OnOk result (map held values.new.items
        ≡ map held values.old.items ++ network_values one_zero (map item_held items.now)) }
{
    if !begins_with_zero(one_zero, items) {
        return Ok(());
    }
    let [first, ..] = items else {
        return Ok(());
    };
    match first.values.as_slice() {
        [] => Ok(()),
        [_, behind @ ..] => push_copies(alloc, values, behind),
    }
}

/// The values before a place, and those from it on.
fn parted(values: &[FieldValue], place: usize) -> (&[FieldValue], &[FieldValue])
    ensures first { result.0.now ≡ take place values.now }
    ensures others { result.1.now ≡ drop place values.now }
{
    if place <= values.len() {
        values.split_at(place)
    } else {
        (values, &values[..0])
    }
}

/// The values of the attributes of a table of a layout.
pub fn element_values(
    alloc: Global,
    layout: &TableLayout,
    table: &ts_table_rows::Table,
) -> Result<Vec<FieldValue>, AllocError>
    ensures { IfOk result (λ v. map held v.items
        ≡ TableElements.element_values (table_page layout.now) (table_held table.now)) }
{
    let head = table.head;
    let (common, others) = parted(&table.body.values, held_count(layout.common));
    let mut values = Vec::new(alloc);
    push_number(&mut values, u64::from(head.version))?;
    push_truth(&mut values, head.current)?;
    push_id(&mut values, layout.ids, head.table_id)?;
    push_extension(&mut values, layout.extension, head.extension)?;
    push_copies(alloc, &mut values, common)?;
    push_kept(&mut values, head.numbers)?;
    push_copies(alloc, &mut values, others)?;
    push_network(alloc, &mut values, layout.one_zero, &table.body.items)?;
    Ok(values)
}

/// The values of the attributes of a section of the short form.
pub fn short_values(alloc: Global, table: &ShortTable) -> Result<Vec<FieldValue>, AllocError>
    ensures { IfOk result (λ v. map held v.items ≡ TableElements.short_values (short_held table.now)) }
{
    let payload = Vec::from_slice(alloc, &table.payload)?;
    Ok(vec![in alloc;
        FieldValue::Number(u64::from(table.table_id)),
        FieldValue::Number(u64::from(table.private)),
        FieldValue::Bytes(payload),
    ]?)
}

/// Whether a table_id is one of an EIT.
pub fn is_eit_id(id: u8) -> bool
    ensures { result ≡ ElementRows.is_eit_id id }
{
    0x4E <= id && id <= 0x6F
}

/// The section numbers of a table given by its bytes, which only an EIT keeps.
fn numbers_shown(table: &LongTable) -> Option<(u8, u8)>
    ensures { result ≡ (if ElementRows.is_eit_id table.now.table_id then Some (long_held table.now).numbers else None) }
{
    if is_eit_id(table.table_id) {
        Some((table.section_number, table.last_section_number))
    } else {
        None
    }
}

/// The values of the attributes of sections of the long form.
pub fn long_values(alloc: Global, table: &LongTable) -> Result<Vec<FieldValue>, AllocError>
    ensures { IfOk result (λ v. map held v.items ≡ TableElements.long_values (long_held table.now)) }
{
    let mut values = vec![in alloc;
        FieldValue::Number(u64::from(table.version)),
        FieldValue::Number(u64::from(table.current)),
        FieldValue::Number(u64::from(table.table_id)),
        FieldValue::Number(u64::from(table.table_id_extension)),
        FieldValue::Number(u64::from(table.private)),
    ]?;
    push_kept(&mut values, numbers_shown(table))?;
    Ok(values)
}
