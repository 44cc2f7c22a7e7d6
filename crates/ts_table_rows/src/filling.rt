//! Filling the bodies of sections with descriptors and items.

ghost use Rattle.std.specs.Prelude.{◌≡◌, ◌≤◌, ◌++◌, [], map, length, true, All, option_map, IfOk, OnOk, IsTrue};
ghost use Rattle.std.specs.List.{list_all};
ghost use Rattle.ts_bits.specs.TaggedBody.{IsDescriptor};
ghost use Rattle.ts_fields.specs.Layout.{held};
ghost use Rattle.ts_table_rows.specs.FilledRows;
ghost use Rattle.ts_table_rows.specs.FilledRows.{IsStep, thing_view, piece_view, with_thing, nothing, row_with};
ghost use Rattle.ts_table_rows.specs.TableFitting.{item_fits, items_fit, values_fit};
ghost use Rattle.ts_table_rows.specs.TablePages.{item_page, item_sound, items_sound, table_page, page_sound};
ghost use Rattle.ts_table_rows.specs.TableValues.{item_held};

use crate::layout::{ItemForm, TableLayout};
use crate::table::TableItem;
use crate::write_rows::{body_bytes, descriptor_row, item_bytes};
use std::alloc::{AllocError, Global};
use std::mem;
use ts_bits::DescriptorList;
use ts_fields::FieldValue;

/// A descriptor of the table itself, or an item, as bytes.
#[derive(Drop)]
pub struct ThingRow {
    /// Whether it is an item.
    pub is_item: bool,
    /// Its bytes.
    pub bytes: Vec<u8>,
}

/// The contents of one section: the bytes of descriptors, and those of items.
#[derive(Drop)]
pub struct Piece {
    /// The bytes of the descriptors of the table itself.
    pub own: Vec<u8>,
    /// The bytes of its items.
    pub items: Vec<u8>,
}

/// The descriptors of the table itself as bytes.
pub fn own_rows(alloc: Global, descriptors: &DescriptorList) -> Result<Vec<ThingRow>, AllocError>
    ensures rows { IfOk result (λ v. map thing_view v.items ≡ map FilledRows.own_row descriptors.now) }
    ensures fit { OnOk result (All (λ d. IsDescriptor d) descriptors.now) }
{
    let mut rows = Vec::new(alloc);
    let list = descriptors.as_slice();
    for descriptor in list {
        let bytes = descriptor_row(alloc, descriptor)?;
        rows.push(ThingRow {
            is_item: false,
            bytes,
        })?;
    }
    Ok(rows)
}

/// The items of a table with items, as bytes.
fn formed_rows(
    alloc: Global,
    form: ItemForm,
    items: &[TableItem],
) -> Result<Vec<ThingRow>, AllocError>
    requires sound { IsTrue (item_sound (item_page form)) }
    requires fits { list_all (item_fits (item_page form)) (map item_held items.now) ≡ true }
    ensures rows { IfOk result (λ v. map thing_view v.items
        ≡ map (FilledRows.item_kind_row (Some (item_page form))) (map item_held items.now)) }
    ensures fit { OnOk result (All (λ x. All (λ d. IsDescriptor d) x.descriptors) (map item_held items.now)) }
{
    let mut rows = Vec::new(alloc);
    for item in items {
        let bytes = item_bytes(alloc, form, item)?;
        rows.push(ThingRow {
            is_item: true,
            bytes,
        })?;
    }
    Ok(rows)
}

/// The items of a table as bytes.
pub fn item_rows(
    alloc: Global,
    items: Option<ItemForm>,
    held: &[TableItem],
) -> Result<Vec<ThingRow>, AllocError>
    requires sound { IsTrue (items_sound (option_map item_page items)) }
    requires fits { items_fit (option_map item_page items) (map item_held held.now) ≡ true }
    ensures rows { IfOk result (λ v. map thing_view v.items
        ≡ map (FilledRows.item_kind_row (option_map item_page items)) (map item_held held.now)) }
    ensures fit { OnOk result (All (λ x. All (λ d. IsDescriptor d) x.descriptors) (map item_held held.now)) }
{
    match items {
        Some(form) => formed_rows(alloc, form, held),
        None => Ok(Vec::new(alloc)),
    }
}

/// Appends one thing to a piece.
fn put_thing(piece: &mut Piece, row: &ThingRow) -> Result<(), AllocError>
    ensures { OnOk result (piece_view piece.new ≡ with_thing (piece_view piece.old) (thing_view row.now)) }
{
    if row.is_item {
        piece.items.extend_from_slice(&row.bytes)?;
        return Ok(());
    }
    piece.own.extend_from_slice(&row.bytes)?;
    Ok(())
}

/// A piece without descriptors and items.
fn empty_piece(alloc: Global) -> Piece
    ensures { piece_view result ≡ nothing }
{
    Piece {
        own: Vec::new(alloc),
        items: Vec::new(alloc),
    }
}

/// Appends the next thing to the current piece, or to a new one where the current piece has no room for it, and returns
/// how many bytes of the room the current piece then takes.
fn put_next(
    alloc: Global,
    pieces: &mut Vec<Piece>,
    hand: &mut Piece,
    room: usize,
    used: usize,
    row: &ThingRow,
) -> Result<usize, AllocError>
    requires { room ≤ 4096 }
    ensures { IfOk result (λ now. IsStep (map piece_view pieces.old.items) (map piece_view pieces.new.items)
        (FilledRows.step room used (piece_view hand.old) (thing_view row.now)) (piece_view hand.new) now) }
{
    let size = row.bytes.len();
    if used.saturating_add(size) <= room {
        put_thing(hand, row)?;
        return Ok(used + size);
    }
    let full = mem::replace(hand, empty_piece(alloc));
    pieces.push(full)?;
    put_thing(hand, row)?;
    Ok(size)
}

/// The pieces of the bodies: each takes things as long as they fit the room, in bytes.
pub fn fill(alloc: Global, room: usize, rows: &[ThingRow]) -> Result<Vec<Piece>, AllocError>
    requires { room ≤ 4096 }
    ensures { IfOk result (λ v. map piece_view v.items
        ≡ FilledRows.filled room 0 nothing (map thing_view rows.now)) }
{
    let mut pieces = Vec::new(alloc);
    let mut hand = empty_piece(alloc);
    let mut used = 0;
    for row in rows {
        let now = put_next(alloc, &mut pieces, &mut hand, room, used, row)?;
        used = now;
    }
    pieces.push(hand)?;
    Ok(pieces)
}

/// All things in one piece.
pub fn gather(alloc: Global, rows: &[ThingRow]) -> Result<Piece, AllocError>
    ensures { IfOk result (λ p. piece_view p ≡ FilledRows.gathered nothing (map thing_view rows.now)) }
{
    let mut hand = empty_piece(alloc);
    for row in rows {
        put_thing(&mut hand, row)?;
    }
    Ok(hand)
}

/// The size of the first thing that is larger than the room.
pub fn first_large(room: usize, rows: &[ThingRow]) -> Option<usize>
    ensures { result ≡ FilledRows.large_row room (map thing_view rows.now) }
{
    for row in rows {
        let size = row.bytes.len();
        if room < size {
            return Some(size);
        }
    }
    None
}

/// The body of the section with this piece, as bytes.
pub fn piece_bytes(
    alloc: Global,
    layout: &TableLayout,
    values: &[FieldValue],
    piece: &Piece,
) -> Result<Vec<u8>, AllocError>
    requires sound { IsTrue (page_sound (table_page layout.now)) }
    requires fits { values_fit (table_page layout.now) (map held values.now) ≡ true }
    ensures { IfOk result (λ row. row.items
        ≡ row_with (table_page layout.now) (map held values.now) (piece_view piece.now)) }
{
    body_bytes(alloc, layout, values, &piece.own, &piece.items)
}

/// The bodies of the sections with these pieces, as bytes.
pub fn pieces_bytes(
    alloc: Global,
    layout: &TableLayout,
    values: &[FieldValue],
    pieces: &[Piece],
) -> Result<Vec<Vec<u8>>, AllocError>
    requires sound { IsTrue (page_sound (table_page layout.now)) }
    requires fits { values_fit (table_page layout.now) (map held values.now) ≡ true }
    ensures { IfOk result (λ v. map (λ row. row.items) v.items
        ≡ map (row_with (table_page layout.now) (map held values.now)) (map piece_view pieces.now)) }
{
    let mut rows = Vec::new(alloc);
    for piece in pieces {
        let row = piece_bytes(alloc, layout, values, piece)?;
        rows.push(row)?;
    }
    Ok(rows)
}
