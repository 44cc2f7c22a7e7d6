//! The table of a run of sections.

ghost use Rattle.std.specs.Prelude.{◌≡◌, ◌∷◌, [], ◌<◌, map, length, true, false, All, IfOk, IfSome, IsTrue, OnOk, is_some, Some, if◌then◌else◌};
ghost use Rattle.ts_section.specs.SectionFields.{body_of};
ghost use Rattle.ts_section.specs.SectionFields as fields;
ghost use Rattle.ts_section.specs.ValidSection.{IsSection};
ghost use Rattle.ts_table_rows.specs.TableFitting.{zeros_from};
ghost use Rattle.ts_table_rows.specs.TablePages.{table_page, page_sound};
ghost use Rattle.ts_table_rows.specs.TableFitting.{table_fits};
ghost use Rattle.ts_table_rows.specs.TableValues.{item_held, table_held};
ghost use Rattle.ts_table_pages.specs.PatEntries.{ordered};
ghost use Rattle.ts_json_tables.specs.ElementRows;
ghost use Rattle.ts_json_tables.specs.HeldTables.{short, table_value};
ghost use Rattle.ts_json_tables.specs.KnownPages.{page_named};
ghost use Rattle.ts_json_tables.specs.ValidTables.{IsTable};
ghost use Rattle.ts_json_tables.specs.RunTables;
ghost use Rattle.ts_json_tables.specs.RunTables.{bytes_table, kept_numbers, read_or_bytes, settled, settled_extension, settled_items, table_by, table_of_run};

use crate::known::layout_with_id;
use crate::table::{LaidTable, LongTable, ShortTable, Table};
use crate::values::{is_eit_id, is_zero};
use std::alloc::{AllocError, Global};
use ts_section::{LongHead, Section, TableRun};
use ts_table_rows::{TableFault, TableHead, TableItem, TableLayout, read_table};

/// table_id_extension; all ones where it is reserved.
fn settle_extension(name: &str, extension: u16) -> u16
    ensures { result ≡ settled_extension name.now extension }
{
    if name.is_empty() {
        return 0xFFFF;
    }
    extension
}

/// The place of the first item with number 0, if there is one.
fn zero_place(items: &[TableItem]) -> Option<usize>
    ensures place { result ≡ RunTables.zero_place (map item_held items.now) }
    ensures within { IfSome result (λ place. place < length items.now) }
{
    let mut place = 0;
    for item in items {
        if is_zero(item) {
            return Some(place);
        }
        place += 1;
    }
    None
}

/// Moves the item with number 0 to the front, if there is one.
fn put_zero_first(items: &mut Vec<TableItem>) -> Result<(), AllocError>
    requires { is_some (zeros_from true false (map item_held items.old.items)) ≡ true }
    ensures { OnOk result (map item_held items.new.items ≡ ordered (map item_held items.old.items)) }
{
    let Some(place) = zero_place(items) else {
        return Ok(());
    };
    let item = items.remove(place);
    items.insert(0, item)?;
    Ok(())
}

/// Puts items into the order in which they are kept.
fn settle_items(items: &mut Vec<TableItem>, one_zero: bool) -> Result<(), AllocError>
    requires { is_some (zeros_from one_zero false (map item_held items.old.items)) ≡ true }
    ensures { OnOk result
        (map item_held items.new.items ≡ settled_items one_zero (map item_held items.old.items)) }
{
    if !one_zero {
        return Ok(());
    }
    put_zero_first(items)
}

/// A table in the form in which it is kept.
fn settle(
    layout: &TableLayout,
    table: ts_table_rows::Table,
) -> Result<ts_table_rows::Table, AllocError>
    requires { table_fits (table_page layout.now) (table_held table) ≡ true }
    ensures { IfOk result (λ t. table_held t ≡ settled (table_page layout.now) (table_held table)) }
{
    let ts_table_rows::Table { head, mut body } = table;
    settle_items(&mut body.items, layout.one_zero)?;
    let head = TableHead {
        table_id: head.table_id,
        extension: settle_extension(layout.extension, head.extension),
        version: head.version,
        current: head.current,
        numbers: head.numbers,
    };
    Ok(ts_table_rows::Table { head, body })
}

/// The bytes of the body of a section.
fn payload_of(alloc: Global, section: &Section) -> Result<Vec<u8>, AllocError>
    ensures same { IfOk result (λ row. row.items ≡ body_of section.now) }
    ensures valid { IsSection section.now }
{
    Vec::from_slice(alloc, section.body())
}

/// The bytes of the bodies of sections.
fn payloads_of(alloc: Global, sections: &[Section]) -> Result<Vec<Vec<u8>>, AllocError>
    ensures { IfOk result (λ v. map (λ row. row.items) v.items ≡ map body_of sections.now) }
{
    let mut payloads = Vec::new(alloc);
    for section in sections {
        let payload = payload_of(alloc, section)?;
        payloads.push(payload)?;
    }
    Ok(payloads)
}

/// The section numbers of a head that a table keeps.
fn numbers_of(head: &LongHead) -> (u8, u8)
    ensures { result ≡ (if ElementRows.is_eit_id head.now.table_id then (head.now.number, head.now.last) else (0, 0)) }
{
    if is_eit_id(head.table_id) {
        (head.number, head.last)
    } else {
        (0, 0)
    }
}

/// The table of a run, given by its bytes.
fn bytes_table(alloc: Global, sections: &[Section]) -> Result<Table, AllocError>
    ensures { IfOk result (λ t. table_value t ≡ RunTables.bytes_table sections.now) }
{
    let Some(first) = sections.first() else {
        return Ok(Table::Short(ShortTable {
            table_id: 0,
            private: false,
            payload: Vec::new(alloc),
        }));
    };
    let Some(head) = first.head() else {
        return short_table(alloc, first);
    };
    let (section_number, last_section_number) = numbers_of(&head);
    let payloads = payloads_of(alloc, sections)?;
    Ok(Table::Long(LongTable {
        version: head.version,
        current: head.current,
        table_id: head.table_id,
        table_id_extension: head.extension,
        private: head.private,
        section_number,
        last_section_number,
        payloads,
    }))
}

/// The table of a section of the short form, given by its bytes.
fn short_table(alloc: Global, section: &Section) -> Result<Table, AllocError>
    ensures same { IfOk result (λ t. table_value t ≡ short (RunTables.short_of section.now)) }
    ensures valid { IsSection section.now }
{
    let payload = payload_of(alloc, section)?;
    Ok(Table::Short(ShortTable {
        table_id: section.table_id(),
        private: section.is_private(),
        payload,
    }))
}

/// The table of a run whose table_id has a layout.
fn typed_table(
    alloc: Global,
    layout: &'static TableLayout,
    run: &TableRun,
) -> Result<Table, AllocError>
    requires sound { IsTrue (page_sound (table_page layout.now)) }
    requires known { page_named (table_page layout.now).name ≡ Some (table_page layout.now) }
    ensures table { IfOk result (λ t. table_value t ≡ table_by (Some (table_page layout.now)) run.now) }
    ensures valid { IfOk result (λ t. IsTable (table_value t)) }
{
    match read_table(alloc, layout, run) {
        Ok(table) => {
            let held = settle(layout, table)?;
            Ok(Table::Laid(LaidTable { layout, held }))
        }
        Err(TableFault::NoMemory) => Err(AllocError),
        Err(TableFault::Broken { .. }) => bytes_table(alloc, run.sections()),
    }
}

/// The table of a run: that of its table_id exactly where the run reads as one, and else its bytes.
pub fn table_of(alloc: Global, run: &TableRun) -> Result<Table, AllocError>
    ensures table { IfOk result (λ t. table_value t ≡ table_of_run run.now) }
    ensures valid { IfOk result (λ t. IsTable (table_value t)) }
{
    let sections = run.sections();
    let Some(first) = sections.first() else {
        return bytes_table(alloc, sections);
    };
    match layout_with_id(first.table_id()) {
        Some(layout) => typed_table(alloc, layout, run),
        None => bytes_table(alloc, sections),
    }
}
