//! Reading and writing whole bodies, of descriptors or of other rows of fields.

ghost use Rattle.std.specs.Prelude.{◌≡◌, ◌≤◌, [], ◌++◌, map, length, take, drop, option_map, true, Some, IsTrue, OnOk, IfOk};
ghost use Rattle.std.specs.List.{flat_map};
ghost use Rattle.ts_fields.specs.Bits.{bits, bits_of};
ghost use Rattle.ts_fields.specs.Bodies;
ghost use Rattle.ts_fields.specs.Bodies.{page, page_sound, page_fits, page_shaped, all_shaped, body_held, held_by, item_held, item_page, items_sound, read_page, spell_page, spell_around, spell_items, spell_loop};
ghost use Rattle.ts_fields.specs.Layout.{held, rows_of};
ghost use Rattle.ts_fields.specs.SoundRows.{are_sound};
ghost use Rattle.ts_fields.specs.Reading.{Gives};
ghost use Rattle.ts_fields.specs.Spelling.{spell_rows};

use crate::field::{Field, FieldValue};
use crate::layout::{Body, Item, ItemLayout, Layout};
use crate::reader::{BitReader, NotRead, read_rows};
use crate::writer::{BitWriter, write_rows};
use std::alloc::{AllocError, Global};

/// Reads a body by its page. `Outside` exactly where the body is not of the page, unless memory runs out.
pub fn read_body(alloc: Global, layout: &Layout, body: &[u8]) -> Result<Body, NotRead>
    requires short { length body.now ≤ 4096 }
    requires sound { IsTrue (page_sound (page layout.now)) }
    ensures read { Gives body_held result (read_page (page layout.now) (bits_of body.now)) }
    ensures fits { IfOk result (λ b. page_fits (page layout.now) (body_held b) ≡ true) }
{
    let values = read_by_place(alloc, layout, body)?;
    Ok(values)
}

/// Reads a body by the place of its items.
#[tactic(auto, unfolding(crate::specs::Bodies::read_page))]
fn read_by_place(alloc: Global, layout: &Layout, body: &[u8]) -> Result<Body, NotRead>
    requires short { length body.now ≤ 4096 }
    requires sound { IsTrue (page_sound (page layout.now)) }
    ensures { Gives body_held result (read_page (page layout.now) (bits_of body.now)) }
{
    match layout.counted {
        None => read_to_end(alloc, layout, body),
        Some(place) => read_counted(alloc, layout, place, body),
    }
}

/// Reads a body whose items, if it has any, go to the end.
fn read_to_end(alloc: Global, layout: &Layout, body: &[u8]) -> Result<Body, NotRead>
    requires short { length body.now ≤ 4096 }
    requires sound { IsTrue (items_sound (page layout.now).items) }
    requires rows { IsTrue (are_sound (page layout.now).head) }
    ensures { Gives body_held result (Bodies.read_to_end (page layout.now) (bits_of body.now)) }
{
    let (head, rest) = read_rows(alloc, layout.head, BitReader::of(body))?;
    let items = read_after(alloc, layout.items, rest)?;
    Ok(Body { head, items })
}

/// The rows before a place, and those from it on.
fn split_rows(rows: &'static [Field], place: usize) -> (&'static [Field], &'static [Field])
    ensures front { rows_of result.0.now ≡ take place (rows_of rows.now) }
    ensures back { rows_of result.1.now ≡ drop place (rows_of rows.now) }
{
    if place > rows.len() {
        return (rows, &[]);
    }
    rows.split_at(place)
}

/// Reads items in as many bytes as a length of 8 bits before them says.
#[tactic(auto, unfolding(crate::specs::Bodies::read_loop))]
fn read_loop<'a>(
    alloc: Global,
    rows: &[Field],
    from: BitReader<'a>,
) -> Result<(Vec<Item>, BitReader<'a>), NotRead>
    requires { IsTrue (items_sound (Some ([], rows_of rows.now))) }
    ensures { Gives (λ x. (map item_held x.0.items, x.1)) result (Bodies.read_loop (rows_of rows.now) from.entry) }
{
    let Some((count, rest)) = from.number(8) else {
        return Err(NotRead::Outside);
    };
    let (bytes, rest) = rest.bytes(alloc, count as usize)?;
    let items = read_items(alloc, rows, BitReader::of(&bytes))?;
    Ok((items, rest))
}

/// The values, and more values after them.
fn joined(mut values: Vec<FieldValue>, more: Vec<FieldValue>) -> Result<Vec<FieldValue>, NotRead>
    ensures { Gives (λ v. map held v.items) result (Some (map held values.items ++ map held more.items)) }
{
    for value in more {
        values.push(value)?;
    }
    Ok(values)
}

/// Reads a body with items between its rows, if it has items.
fn read_counted(alloc: Global, layout: &Layout, place: usize, body: &[u8]) -> Result<Body, NotRead>
    requires short { length body.now ≤ 4096 }
    requires front { IsTrue (are_sound (take place (page layout.now).head)) }
    requires back { IsTrue (are_sound (drop place (page layout.now).head)) }
    requires rows { IsTrue (items_sound (page layout.now).items) }
    ensures { Gives body_held result
        (Bodies.read_counted place (page layout.now).items (page layout.now).head (bits_of body.now)) }
{
    let Some(items) = layout.items else {
        return Err(NotRead::Outside);
    };
    let (front, back) = split_rows(layout.head, place);
    read_around(alloc, front, items.rows, back, body)
}

/// Reads rows, counted items and rows.
fn read_around(
    alloc: Global,
    front: &[Field],
    rows: &[Field],
    back: &[Field],
    body: &[u8],
) -> Result<Body, NotRead>
    requires short { length body.now ≤ 4096 }
    requires front { IsTrue (are_sound (rows_of front.now)) }
    requires back { IsTrue (are_sound (rows_of back.now)) }
    requires rows { IsTrue (items_sound (Some ([], rows_of rows.now))) }
    ensures { Gives body_held result
        (Bodies.read_around (rows_of front.now) (rows_of rows.now) (rows_of back.now) (bits_of body.now)) }
{
    let (head, rest) = read_rows(alloc, front, BitReader::of(body))?;
    let (items, rest) = read_loop(alloc, rows, rest)?;
    let (tail, rest) = read_rows(alloc, back, rest)?;
    if rest.len() != 0 {
        return Err(NotRead::Outside);
    }
    let head = joined(head, tail)?;
    Ok(Body { head, items })
}

/// Reads what follows the fields: items, or nothing.
#[tactic(auto, unfolding(crate::specs::Bodies::read_after))]
fn read_after<'a>(
    alloc: Global,
    items: Option<ItemLayout>,
    from: BitReader<'a>,
) -> Result<Vec<Item>, NotRead>
    requires { IsTrue (items_sound (option_map item_page items)) }
    ensures { Gives (λ v. map item_held v.items) result
        (Bodies.read_after (option_map item_page items) from.entry) }
{
    match items {
        Some(layout) => read_items(alloc, layout.rows, from),
        None if from.len() == 0 => Ok(Vec::new(alloc)),
        None => Err(NotRead::Outside),
    }
}

/// Reads items up to the end.
fn read_items<'a>(alloc: Global, rows: &[Field], from: BitReader<'a>) -> Result<Vec<Item>, NotRead>
    requires { IsTrue (items_sound (Some ([], rows_of rows.now))) }
    ensures { Gives (λ v. map item_held v.items) result
        (Bodies.read_items (length from.entry) (rows_of rows.now) from.entry) }
{
    let mut items = Vec::new(alloc);
    let mut rest = from;
    while rest.len() != 0 {
        let (values, after) = read_rows(alloc, rows, rest)?;
        items.push(Item { values })?;
        rest = after;
    }
    Ok(items)
}

/// The bytes of a body with these values. An `AllocError` where memory runs out.
pub fn write_body(alloc: Global, layout: &Layout, body: &Body) -> Result<Vec<u8>, AllocError>
    requires sound { IsTrue (page_sound (page layout.now)) }
    requires shaped { page_shaped (page layout.now) (body_held body.now) ≡ true }
    ensures { IfOk result (λ bytes. bits_of bytes.items ≡ spell_page (page layout.now) (body_held body.now)) }
{
    let mut out = BitWriter::new(alloc);
    write_by_place(alloc, &mut out, layout, body)?;
    Ok(out.into_bytes())
}

/// Writes the fields and the items.
#[tactic(auto, unfolding(crate::specs::Bodies::spell_page))]
fn write_by_place(
    alloc: Global,
    out: &mut BitWriter,
    layout: &Layout,
    body: &Body,
) -> Result<(), AllocError>
    requires sound { IsTrue (page_sound (page layout.now)) }
    requires shaped { page_shaped (page layout.now) (body_held body.now) ≡ true }
    ensures { OnOk result (out.new ≡ out.old ++ spell_page (page layout.now) (body_held body.now)) }
{
    match layout.counted {
        None => {
            write_rows(out, layout.head, &body.head)?;
            write_after(out, layout.items, &body.items)
        }
        Some(place) => write_around(alloc, out, layout, place, body),
    }
}

/// Writes items with their length in bytes before them, of which the last 8 bits are written.
fn write_loop(
    alloc: Global,
    out: &mut BitWriter,
    rows: &[Field],
    items: &[Item],
) -> Result<(), AllocError>
    requires sound { IsTrue (items_sound (Some ([], rows_of rows.now))) }
    requires shaped { all_shaped (rows_of rows.now) (map item_held items.now) ≡ true }
    ensures { OnOk result (out.new ≡ out.old ++ spell_loop (rows_of rows.now) (map item_held items.now)) }
{
    let mut inner = BitWriter::new(alloc);
    write_items(&mut inner, rows, items)?;
    let bytes = inner.into_bytes();
    put_counted(out, &bytes)?;
    Ok(())
}

/// Appends bytes with their number before them.
fn put_counted(out: &mut BitWriter, bytes: &[u8]) -> Result<(), AllocError>
    ensures { OnOk result (out.new ≡ out.old ++ (bits 8 (length bytes.now) ++ bits_of bytes.now)) }
{
    out.put(8, bytes.len() as u64)?;
    out.put_bytes(bytes)
}

/// The number of values of some rows.
fn held_count(rows: &[Field]) -> usize
    ensures count { result ≡ held_by (rows_of rows.now) }
    ensures few { result ≤ length rows.now }
{
    let mut count = 0;
    for field in rows {
        count += field.kind.holds();
    }
    count
}

/// The values from a place on.
fn values_from(values: &[FieldValue], place: usize) -> &[FieldValue]
    ensures { result.now ≡ drop place values.now }
{
    if place <= values.len() {
        values.split_at(place).1
    } else {
        &values[..0]
    }
}

/// The rows of the items.
fn item_rows(items: Option<ItemLayout>) -> &'static [Field]
    ensures { rows_of result.now ≡ Bodies.item_rows (option_map item_page items) }
{
    match items {
        Some(layout) => layout.rows,
        None => &[],
    }
}

/// Writes a body with items between its rows.
fn write_around(
    alloc: Global,
    out: &mut BitWriter,
    layout: &Layout,
    place: usize,
    body: &Body,
) -> Result<(), AllocError>
    requires front { IsTrue (are_sound (take place (page layout.now).head)) }
    requires back { IsTrue (are_sound (drop place (page layout.now).head)) }
    requires rows { IsTrue (items_sound (Some ([], Bodies.item_rows (page layout.now).items))) }
    requires shaped { all_shaped (Bodies.item_rows (page layout.now).items) (body_held body.now).items ≡ true }
    ensures { OnOk result (out.new ≡ out.old ++ spell_around (take place (page layout.now).head)
        (Bodies.item_rows (page layout.now).items) (drop place (page layout.now).head) (body_held body.now)) }
{
    let (front, back) = split_rows(layout.head, place);
    write_rows(out, front, &body.head)?;
    write_loop(alloc, out, item_rows(layout.items), &body.items)?;
    write_rows(out, back, values_from(&body.head, held_count(front)))?;
    Ok(())
}

/// Writes the items that follow the fields, where the page has items.
fn write_after(
    out: &mut BitWriter,
    layout: Option<ItemLayout>,
    items: &[Item],
) -> Result<(), AllocError>
    requires { IsTrue (items_sound (option_map item_page layout)) }
    ensures { OnOk result (out.new
        ≡ out.old ++ spell_items (option_map item_page layout) (map item_held items.now)) }
{
    match layout {
        Some(layout) => write_items(out, layout.rows, items),
        None => Ok(()),
    }
}

/// Writes items one after another.
fn write_items(out: &mut BitWriter, rows: &[Field], items: &[Item]) -> Result<(), AllocError>
    requires { IsTrue (are_sound (rows_of rows.now)) }
    ensures { OnOk result (out.new
        ≡ out.old ++ flat_map (spell_rows (rows_of rows.now)) (map item_held items.now)) }
{
    for item in items {
        write_rows(out, rows, &item.values)?;
    }
    Ok(())
}
