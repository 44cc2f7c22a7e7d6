//! The sections of a table.

ghost use Rattle.std.specs.Prelude.{◌≡◌, ◌≤◌, ◌<◌, ◌+◌, map, length, true, IfOk, IsTrue, Ok, OnOk};
ghost use Rattle.ts_fields.specs.Layout.{held};
ghost use Rattle.ts_section.specs.SectionRun.{IsTableRun};
ghost use Rattle.ts_section.specs.WrittenSection.{long_section};
ghost use Rattle.ts_table_rows.specs.FilledRows;
ghost use Rattle.ts_table_rows.specs.FilledRows.{AreSmall, thing_view, kind_row, rows_by};
ghost use Rattle.ts_table_rows.specs.RoundTrip.{forms_runs};
ghost use Rattle.ts_table_rows.specs.RunReading.{read_run};
ghost use Rattle.ts_table_rows.specs.TableFitting.{DescriptorsFit, body_fits, head_fits, table_fits, values_fit};
ghost use Rattle.ts_table_rows.specs.TablePages.{table_page, page_sound};
ghost use Rattle.ts_table_rows.specs.TableSections;
ghost use Rattle.ts_table_rows.specs.TableSections.{Writes, head_with, sections_of, sections_with, things, told_length};
ghost use Rattle.ts_table_rows.specs.TableValues.{body_held, table_held};
ghost use Rattle.ts_table_rows.specs.declared.fault.TableRefusal.TheVariants.{TooLarge};

use crate::fault::TableRefusal;
use crate::filling::{
    ThingRow, fill, first_large, gather, item_rows, own_rows, piece_bytes, pieces_bytes,
};
use crate::filling_laws::bodies_are_filled;
use crate::layout::TableLayout;
use crate::round_trip::written_tables_are_read;
use crate::table::{Table, TableBody, TableHead};
use crate::write_rows::body_bytes;
use std::alloc::{AllocError, Global};
use ts_fields::FieldValue;
use ts_section::{LongHead, Section};

/// The refusal of a section that would need this section_length.
fn too_large(bytes: u128) -> TableRefusal
    ensures { result ≡ TooLarge (told_length bytes) }
{
    if bytes < 4294967296 {
        return TableRefusal::TooLarge {
            bytes: bytes as u32,
        };
    }
    TableRefusal::TooLarge { bytes: u32::MAX }
}

/// The bodies of a table with as many sections as it needs.
#[tactic(auto, unfolding(crate::specs::FilledRows::filled_rows))]
fn filled_bodies(
    alloc: Global,
    layout: &TableLayout,
    values: &[FieldValue],
    rows: &[ThingRow],
) -> Result<Vec<Vec<u8>>, TableRefusal>
    requires sound { IsTrue (page_sound (table_page layout.now)) }
    requires fits { values_fit (table_page layout.now) (map held values.now) ≡ true }
    ensures { Writes (λ v. map (λ row. row.items) v.items) result
        (FilledRows.filled_rows (table_page layout.now) (map held values.now) (map thing_view rows.now)) }
{
    let empty = body_bytes(alloc, layout, values, &[], &[])?;
    let least = 9 + empty.len();
    let most = usize::from(layout.most);
    if most < least {
        return Err(too_large(least as u128));
    }
    let room = most - least;
    if let Some(size) = first_large(room, rows) {
        return Err(too_large(least as u128 + size as u128));
    }
    let pieces = fill(alloc, room, rows)?;
    let bodies = pieces_bytes(alloc, layout, values, &pieces)?;
    Ok(bodies)
}

/// The body of a table with one section.
#[tactic(auto, unfolding(crate::specs::FilledRows::single_row))]
fn single_body(
    alloc: Global,
    layout: &TableLayout,
    values: &[FieldValue],
    rows: &[ThingRow],
) -> Result<Vec<Vec<u8>>, TableRefusal>
    requires sound { IsTrue (page_sound (table_page layout.now)) }
    requires fits { values_fit (table_page layout.now) (map held values.now) ≡ true }
    ensures { Writes (λ v. map (λ row. row.items) v.items) result
        (FilledRows.single_row (table_page layout.now) (map held values.now) (map thing_view rows.now)) }
{
    let piece = gather(alloc, rows)?;
    let body = piece_bytes(alloc, layout, values, &piece)?;
    let length = 9 + body.len();
    if usize::from(layout.most) < length {
        return Err(too_large(length as u128));
    }
    let mut bodies = Vec::new(alloc);
    bodies.push(body)?;
    Ok(bodies)
}

/// The bodies of a table.
fn table_bodies(
    alloc: Global,
    layout: &TableLayout,
    values: &[FieldValue],
    rows: &[ThingRow],
) -> Result<Vec<Vec<u8>>, TableRefusal>
    requires sound { IsTrue (page_sound (table_page layout.now)) }
    requires fits { values_fit (table_page layout.now) (map held values.now) ≡ true }
    ensures { Writes (λ v. map (λ row. row.items) v.items) result
        (rows_by (table_page layout.now) (map held values.now) (map thing_view rows.now)) }
{
    if layout.single {
        single_body(alloc, layout, values, rows)
    } else {
        filled_bodies(alloc, layout, values, rows)
    }
}

/// The first section number and the last: those of the table, or from 0.
fn first_and_last(numbers: Option<(u8, u8)>, count: usize) -> (u8, u8)
    requires some { 0 < count }
    requires few { count ≤ 256 }
    ensures first { result.0 ≡ (TableSections.numbers_of numbers count).0 }
    ensures last { result.1 ≡ (TableSections.numbers_of numbers count).1 }
{
    match numbers {
        Some((first, last)) => (first, last),
        None => (0, (count - 1) as u8),
    }
}

/// The section with this number and this body.
fn one_section(
    alloc: Global,
    layout: &TableLayout,
    head: TableHead,
    last: u8,
    number: usize,
    body: &[u8],
) -> Result<Section, AllocError>
    requires valid_id { head.table_id < 255 }
    requires version { head.version < 32 }
    requires number { number ≤ last }
    requires room { length body.now ≤ 4084 }
    ensures { IfOk result (λ s. s ≡ long_section (head_with (table_page layout.now) head last number) body.now) }
{
    let head = LongHead {
        table_id: head.table_id,
        private: layout.private_bit,
        extension: head.extension,
        version: head.version,
        current: head.current,
        number: number as u8,
        last,
    };
    Section::long(alloc, head, body)
}

/// The sections with these bodies, numbered.
fn number_sections(
    alloc: Global,
    layout: &TableLayout,
    head: TableHead,
    bodies: &[Vec<u8>],
) -> Result<Vec<Section>, TableRefusal>
    requires head { head_fits (table_page layout.now) head ≡ true }
    requires some { 0 < length bodies.now }
    requires one { layout.now.keeps_numbers ≡ true → length bodies.now ≡ 1 }
    requires small { AreSmall (map (λ row. row.items) bodies.now) }
    ensures { Writes (λ v. v.items) result
        (sections_with (table_page layout.now) head (map (λ row. row.items) bodies.now)) }
{
    if bodies.len() > 256 {
        return Err(TableRefusal::TooMany);
    }
    let (first, last) = first_and_last(head.numbers, bodies.len());
    let mut number = usize::from(first);
    let mut sections = Vec::new(alloc);
    for body in bodies {
        let section = one_section(alloc, layout, head, last, number, body)?;
        sections.push(section)?;
        number += 1;
    }
    Ok(sections)
}

/// The bytes of the descriptors and items of a table, its own descriptors first.
fn thing_rows(
    alloc: Global,
    layout: &TableLayout,
    body: &TableBody,
) -> Result<Vec<ThingRow>, AllocError>
    requires sound { IsTrue (page_sound (table_page layout.now)) }
    requires fits { body_fits (table_page layout.now) (body_held body.now) ≡ true }
    ensures rows { IfOk result (λ v. map thing_view v.items
        ≡ map (kind_row (table_page layout.now).items) (things (body_held body.now))) }
    ensures fit { OnOk result (DescriptorsFit (body_held body.now)) }
{
    let mut rows = own_rows(alloc, &body.descriptors)?;
    let mut items = item_rows(alloc, layout.items, &body.items)?;
    rows.append(&mut items)?;
    Ok(rows)
}

/// The sections of a table. `TooLarge` has the section_length that is needed and above the maximum: that of the one
/// section; where the table may have more, that of a section without descriptors and items, or with one of them
/// alone. `TooMany` is returned where none is above the maximum and more than 256 sections would be needed. The
/// sections, read as a run, give the table again, and they are a whole run where those of the layout can be one.
pub fn write_table(
    alloc: Global,
    layout: &TableLayout,
    table: &Table,
) -> Result<Vec<Section>, TableRefusal>
    requires sound { IsTrue (page_sound (table_page layout.now)) }
    requires fits { table_fits (table_page layout.now) (table_held table.now) ≡ true }
    ensures written { Writes (λ v. v.items) result (sections_of (table_page layout.now) (table_held table.now)) }
    ensures fit { OnOk result (DescriptorsFit (body_held table.now.body)) }
    ensures again { IfOk result (λ v. read_run (table_page layout.now) v.items ≡ Ok (table_held table.now)) }
    ensures whole { IfOk result (λ v. forms_runs (table_page layout.now) ≡ true → IsTableRun v.items) }
{
    // They run nothing: the proof cites them.
    bodies_are_filled();
    written_tables_are_read();
    let rows = thing_rows(alloc, layout, &table.body)?;
    let bodies = table_bodies(alloc, layout, &table.body.values, &rows)?;
    let sections = number_sections(alloc, layout, table.head, &bodies)?;
    Ok(sections)
}
