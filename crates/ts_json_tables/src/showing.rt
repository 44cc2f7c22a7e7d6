//! Showing tables as JSON elements.

ghost use Rattle.std.specs.Prelude.{◌≡◌, ◌++◌, map, true, IfOk};
ghost use Rattle.serde_json.specs.View.{view};
ghost use Rattle.ts_fields.specs.Layout.{rows_of, held};
ghost use Rattle.ts_table_rows.specs.TablePages.{table_page};
ghost use Rattle.ts_table_rows.specs.TableValues.{table_held};
ghost use Rattle.ts_json_tables.specs.HeldTables.{long_held, table_value};
ghost use Rattle.ts_json_tables.specs.ValidTables;
ghost use Rattle.ts_json_tables.specs.ValidTables.{IsLaid, IsTable};
ghost use Rattle.ts_json_tables.specs.TableElements.{laid_shown, long_shown, table_shown};

use crate::items::{children_json, sections_json};
use crate::rows::{element_rows, long_rows};
use crate::short_showing::short_json;
use crate::table::{LaidTable, LongTable, Table};
use crate::values::{begins_with_zero, element_values, is_eit_id, long_values};
use serde_json::Value;
use std::alloc::{AllocError, Global};
use ts_jtree::{element_json, fit_is_shown};

/// The element of a table of a layout.
fn laid_json(alloc: Global, table: &LaidTable) -> Result<Value, AllocError>
    requires { IsLaid (table_page table.now.layout.now) (table_held table.now.held) }
    ensures { IfOk result (λ v. view v ≡ laid_shown (table_page table.now.layout.now) (table_held table.now.held)) }
{
    let layout = table.layout;
    let body = &table.held.body;
    let network = begins_with_zero(layout.one_zero, &body.items);
    let rows = element_rows(alloc, layout, network)?;
    let values = element_values(alloc, layout, &table.held)?;
    let nodes = children_json(alloc, layout, body)?;
    fit_is_shown();
    element_json(
        alloc,
        layout.name,
        &rows,
        &values,
        Some(Value::Array(nodes)),
    )
}

/// The element of sections of the long form.
fn long_json(alloc: Global, table: &LongTable) -> Result<Value, AllocError>
    ensures { IfOk result (λ v. view v ≡ long_shown (long_held table.now)) }
{
    let rows = long_rows(alloc, is_eit_id(table.table_id))?;
    let values = long_values(alloc, table)?;
    let nodes = sections_json(alloc, &table.payloads)?;
    element_json(
        alloc,
        "generic_long_table",
        &rows,
        &values,
        Some(Value::Array(nodes)),
    )
}

/// The element that shows a table: every attribute is written, defaults too, and `#nodes` in every element that
/// may have children.
pub fn to_json(alloc: Global, table: &Table) -> Result<Value, AllocError>
    requires { IsTable (table_value table.now) }
    ensures { IfOk result (λ v. view v ≡ table_shown (table_value table.now)) }
{
    match table {
        Table::Laid(table) => laid_json(alloc, table),
        Table::Short(table) => short_json(alloc, table),
        Table::Long(table) => long_json(alloc, table),
    }
}
