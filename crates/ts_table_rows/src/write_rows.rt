//! Writing descriptors, items and bodies of sections as bytes.

ghost use Rattle.std.specs.Prelude.{◌≡◌, ◌≤◌, ◌++◌, map, length, take, drop, option_map, true, All, IfOk, OnOk, IsTrue};
ghost use Rattle.ts_bits.specs.TaggedBody.{IsDescriptor, descriptor_bytes};
ghost use Rattle.ts_fields.specs.Fitting.{are_bytes};
ghost use Rattle.ts_fields.specs.Layout.{held, rows_of};
ghost use Rattle.ts_table_rows.specs.BodySpelling;
ghost use Rattle.ts_table_rows.specs.BodySpelling.{spell_counted, spell_described, spell_item, spell_own, spell_after, spell_parts, bytes_of};
ghost use Rattle.ts_table_rows.specs.TableFitting.{item_fits, values_fit};
ghost use Rattle.ts_table_rows.specs.TablePages.{item_page, item_sound, table_page, page_sound};
ghost use Rattle.ts_table_rows.specs.TableValues.{item_held};

use crate::layout::{ItemForm, LoopForm, TableLayout};
use crate::table::TableItem;
use crate::write_laws::written_rows_are_whole;
use std::alloc::{AllocError, Global};
use ts_bits::{Descriptor, DescriptorList, write_loop};
use ts_fields::{BitWriter, Field, FieldValue, write_rows};

/// Appends the number of some bytes in 12 bits, and the bytes.
#[tactic(auto, unfolding(crate::specs::BodySpelling::spell_counted))]
fn put_counted(out: &mut BitWriter, row: &[u8]) -> Result<(), AllocError>
    ensures { OnOk result (out.new ≡ out.old ++ spell_counted row.now) }
{
    out.put(12, row.len() as u64)?;
    out.put_bytes(row)
}

/// Appends the descriptors of an item, if it has any.
fn put_described(
    alloc: Global,
    out: &mut BitWriter,
    described: bool,
    descriptors: &DescriptorList,
) -> Result<(), AllocError>
    ensures written { OnOk result (out.new ≡ out.old ++ spell_described described descriptors.now) }
    ensures fit { OnOk result (described ≡ true → All (λ d. IsDescriptor d) descriptors.now) }
{
    if !described {
        return Ok(());
    }
    let row = write_loop(alloc, descriptors.as_slice())?;
    put_counted(out, &row)
}

/// Appends an item.
#[tactic(auto, unfolding(crate::specs::BodySpelling::spell_item))]
fn put_item(
    alloc: Global,
    out: &mut BitWriter,
    form: ItemForm,
    item: &TableItem,
) -> Result<(), AllocError>
    requires { IsTrue (item_sound (item_page form)) }
    ensures written { OnOk result (out.new ≡ out.old ++ spell_item (item_page form) (item_held item.now)) }
    ensures fit { OnOk result (form.described ≡ true → All (λ d. IsDescriptor d) item.now.descriptors) }
{
    write_rows(out, form.rows, &item.values)?;
    put_described(alloc, out, form.described, &item.descriptors)
}

/// Each byte is below 256. A law; it runs nothing.
fn bytes_are_small(row: &[u8])
    ensures { are_bytes row.now ≡ true }
{}

/// An item as bytes.
pub fn item_bytes(alloc: Global, form: ItemForm, item: &TableItem) -> Result<Vec<u8>, AllocError>
    requires sound { IsTrue (item_sound (item_page form)) }
    requires fits { item_fits (item_page form) (item_held item.now) ≡ true }
    ensures row { IfOk result (λ row. row.items ≡ bytes_of (spell_item (item_page form) (item_held item.now))) }
    ensures fit { OnOk result (form.described ≡ true → All (λ d. IsDescriptor d) item.now.descriptors) }
{
    // It runs nothing: the proof cites it.
    written_rows_are_whole();
    let mut out = BitWriter::new(alloc);
    put_item(alloc, &mut out, form, item)?;
    let row = out.into_bytes();
    bytes_are_small(&row);
    Ok(row)
}

/// A descriptor as bytes.
pub fn descriptor_row(alloc: Global, descriptor: &Descriptor) -> Result<Vec<u8>, AllocError>
    ensures row { IfOk result (λ row. row.items ≡ descriptor_bytes descriptor.now) }
    ensures fits { IsDescriptor descriptor.now }
{
    let body = descriptor.body();
    let mut row = Vec::with_capacity(alloc, 2 + body.len())?;
    row.push(descriptor.tag())?;
    row.push(body.len() as u8)?;
    row.extend_from_slice(body)?;
    Ok(row)
}

/// Appends the descriptors of the table itself, given as bytes.
fn put_own(out: &mut BitWriter, form: LoopForm, row: &[u8]) -> Result<(), AllocError>
    ensures { OnOk result (out.new ≡ out.old ++ spell_own form row.now) }
{
    match form {
        LoopForm::Absent => Ok(()),
        LoopForm::Counted => put_counted(out, row),
        LoopForm::ToEnd => out.put_bytes(row),
    }
}

/// Appends the items, given as bytes.
fn put_after(out: &mut BitWriter, items: Option<ItemForm>, row: &[u8]) -> Result<(), AllocError>
    ensures { OnOk result (out.new ≡ out.old ++ spell_after (option_map item_page items) row.now) }
{
    match items {
        None => Ok(()),
        Some(form) if form.counted => {
            out.put(4, 15)?;
            put_counted(out, row)
        }
        Some(_) => out.put_bytes(row),
    }
}

/// The number of values of some rows.
pub fn held_count(rows: &[Field]) -> usize
    ensures count { result ≡ BodySpelling.held_count (rows_of rows.now) }
    ensures few { result ≤ length rows.now }
{
    let mut count = 0;
    for field in rows {
        count += field.kind.holds();
    }
    count
}

/// The values before an index, and those from it on.
fn parted(values: &[FieldValue], place: usize) -> (&[FieldValue], &[FieldValue])
    ensures first { result.0.now ≡ take place values.now }
    ensures others { result.1.now ≡ drop place values.now }
{
    if place <= values.len() {
        values.split_at(place)
    } else {
        (values, &values[..0])
    }
}

/// Appends a body with these values, these bytes of descriptors and these bytes of items.
#[tactic(auto, unfolding(crate::specs::BodySpelling::spell_parts))]
fn put_parts(
    out: &mut BitWriter,
    layout: &TableLayout,
    values: &[FieldValue],
    own: &[u8],
    items: &[u8],
) -> Result<(), AllocError>
    requires { IsTrue (page_sound (table_page layout.now)) }
    ensures { OnOk result (out.new ≡ out.old ++ spell_parts (table_page layout.now) (map held values.now) own.now items.now) }
{
    let (common, head) = parted(values, held_count(layout.common));
    write_rows(out, layout.common, common)?;
    write_rows(out, layout.head, head)?;
    put_own(out, layout.loop_form, own)?;
    put_after(out, layout.items, items)
}

/// The body of a section as bytes.
pub fn body_bytes(
    alloc: Global,
    layout: &TableLayout,
    values: &[FieldValue],
    own: &[u8],
    items: &[u8],
) -> Result<Vec<u8>, AllocError>
    requires sound { IsTrue (page_sound (table_page layout.now)) }
    requires fits { values_fit (table_page layout.now) (map held values.now) ≡ true }
    ensures { IfOk result (λ row. row.items
        ≡ bytes_of (spell_parts (table_page layout.now) (map held values.now) own.now items.now)) }
{
    // It runs nothing: the proof cites it.
    written_rows_are_whole();
    let mut out = BitWriter::new(alloc);
    put_parts(&mut out, layout, values, own, items)?;
    let row = out.into_bytes();
    bytes_are_small(&row);
    Ok(row)
}
