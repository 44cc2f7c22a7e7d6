//! Showing tables of the short form as JSON elements.

ghost use Rattle.std.specs.Prelude.{◌≡◌, ◌≤◌, IfOk, IsTrue, Some, length, true};
ghost use Rattle.serde_json.specs.View.{view};
ghost use Rattle.ts_fields.specs.Bodies.{page, page_sound};
ghost use Rattle.ts_fields.specs.Fitting.{fits};
ghost use Rattle.ts_json_tables.specs.HeldTables.{short_held};
ghost use Rattle.ts_json_tables.specs.ShortPages.{short_page_of};
ghost use Rattle.ts_json_tables.specs.TableElements.{generic_shown, paged_shown, short_shown, tot_or_bytes, tot_shown};
ghost use Rattle.ts_json_tables.specs.TimeOffsets.{offset_held, tot_of, tot_rows};
ghost use Rattle.ts_json_tables.specs.ValidTables;

use crate::items::descrs_json;
use crate::rows::short_rows;
use crate::short_pages::short_layout_of;
use crate::table::ShortTable;
use crate::time_offset::{TOT_ID, TimeOffset, read_tot, tot_fields};
use crate::values::short_values;
use serde_json::Value;
use std::alloc::{AllocError, Global};
use ts_fields::{Layout, NotRead, read_body};
use ts_json_descr::body_json;
use ts_jtree::{element_json, fit_is_shown};

/// The element of a section that is given by its bytes.
fn generic_json(alloc: Global, table: &ShortTable) -> Result<Value, AllocError>
    ensures { IfOk result (λ v. view v ≡ generic_shown (short_held table.now)) }
{
    let values = short_values(alloc, table)?;
    element_json(alloc, "generic_short_table", &short_rows(), &values, None)
}

/// The element of a section whose table_id has a page: of the page exactly where it reads the bytes.
fn page_json(alloc: Global, layout: &Layout, table: &ShortTable) -> Result<Value, AllocError>
    requires sound { IsTrue (page_sound (page layout.now)) }
    requires room { length table.now.payload.items ≤ 4093 }
    ensures { IfOk result (λ v. view v ≡ paged_shown (Some (page layout.now)) (short_held table.now)) }
{
    match read_body(alloc, layout, &table.payload) {
        Ok(body) => body_json(alloc, layout, &body),
        Err(NotRead::NoMemory) => Err(AllocError),
        Err(NotRead::Outside) => generic_json(alloc, table),
    }
}

/// The element of a section whose table_id may have a page.
fn paged_json(alloc: Global, table: &ShortTable) -> Result<Value, AllocError>
    requires { length table.now.payload.items ≤ 4093 }
    ensures { IfOk result (λ v. view v ≡ paged_shown (short_page_of table.now.table_id) (short_held table.now)) }
{
    match short_layout_of(table.table_id) {
        Some(layout) => page_json(alloc, layout, table),
        None => generic_json(alloc, table),
    }
}

/// The element of a TOT.
fn offset_json(alloc: Global, offset: &TimeOffset) -> Result<Value, AllocError>
    requires { fits tot_rows (offset_held offset.now).values ≡ true }
    ensures { IfOk result (λ v. view v ≡ tot_shown (offset_held offset.now)) }
{
    let nodes = descrs_json(alloc, offset.descriptors.as_slice())?;
    fit_is_shown();
    element_json(
        alloc,
        "TOT",
        tot_fields(),
        &offset.values,
        Some(Value::Array(nodes)),
    )
}

/// The element of a section with the table_id of a TOT.
fn tot_json(alloc: Global, table: &ShortTable) -> Result<Value, AllocError>
    requires { length table.now.payload.items ≤ 4093 }
    ensures { IfOk result (λ v. view v ≡ tot_or_bytes (tot_of table.now.payload.items) (short_held table.now)) }
{
    match read_tot(alloc, &table.payload) {
        Ok(offset) => offset_json(alloc, &offset),
        Err(NotRead::NoMemory) => Err(AllocError),
        Err(NotRead::Outside) => generic_json(alloc, table),
    }
}

/// The element of a section of the short form: with the name of its table exactly where it reads as that table, and else
/// a `generic_short_table`.
pub fn short_json(alloc: Global, table: &ShortTable) -> Result<Value, AllocError>
    requires { ValidTables.is_short (short_held table.now) ≡ true }
    ensures { IfOk result (λ v. view v ≡ short_shown (short_held table.now)) }
{
    if !table.private {
        return generic_json(alloc, table);
    }
    if table.table_id == TOT_ID {
        return tot_json(alloc, table);
    }
    paged_json(alloc, table)
}
