//! Tables as lines of a report.
ghost use Rattle.std.specs.Prelude.{◌≡◌, ◌++◌, ◌∷◌, [], IfOk, IsOk, OnOk};
ghost use Rattle.std.specs.String.{string_bytes};
ghost use Rattle.serde_json.specs.Written.{compact_text};
ghost use Rattle.ts_json_tables.specs.HeldTables.{table_value};
ghost use Rattle.ts_json_tables.specs.ValidTables.{IsTable};
ghost use Rattle.ts_json_tables.specs.TableElements.{table_shown};
ghost use Rattle.plugin_trait.specs.PlacedLines.{placed_at};
ghost use Rattle.plug_tables.specs.TablesRule.{element_text, id_of, is_told, table_text, table_texts};

use plugin_options::NumberSet;
use plugin_trait::{Line, LineText};
use std::alloc::{AllocError, Global};
use std::collections::VecDeque;
use ts_json_tables::{Table, shown_table_is_plain, table_of, to_json};
use ts_section::TableRun;

/// Appends the lines of the tables that are reported. All are complete with the packet at a position on a PID. Where there
/// are none, no memory is needed.
pub fn tell_tables(
    alloc: Global,
    told: &mut VecDeque<Line>,
    tids: &NumberSet,
    at: u64,
    pid: u16,
    tables: &[TableRun],
) -> Result<(), AllocError>
    ensures told { OnOk result (told.new.items ≡ told.old.items ++ placed_at at (table_texts tids.now at pid tables.now)) }
    ensures none { tables.now ≡ [] → IsOk result }
{
    for table in tables {
        tell_table(alloc, told, tids, at, pid, table)?;
    }
    Ok(())
}

// Appends the line of a table, if it is reported.
fn tell_table(
    alloc: Global,
    told: &mut VecDeque<Line>,
    tids: &NumberSet,
    at: u64,
    pid: u16,
    table: &TableRun,
) -> Result<(), AllocError>
    ensures { OnOk result (told.new.items ≡ told.old.items ++ placed_at at (table_texts tids.now at pid (table.now ∷ []))) }
{
    if !is_told(tids, table) {
        return Ok(());
    }
    let text = text_of(alloc, at, pid, table)?;
    told.push_back(Line { at, text })?;
    Ok(())
}

// Whether a table is one of those that are reported.
fn is_told(tids: &NumberSet, table: &TableRun) -> bool
    ensures { result ≡ is_told tids.now table.now }
{
    tids.is_empty() || tids.has(u64::from(id_of(table)))
}

// The table_id of a table.
fn id_of(table: &TableRun) -> u8
    ensures { result ≡ id_of table.now }
{
    match table.sections().first() {
        Some(section) => section.table_id(),
        None => 0,
    }
}

// The text of the line of a table.
fn text_of(alloc: Global, at: u64, pid: u16, table: &TableRun) -> Result<LineText, AllocError>
    ensures { IfOk result (λ text. text ≡ table_text at pid table.now) }
{
    let element = element_of(alloc, table)?;
    let text = format!(in alloc; "packet {at} pid {pid} {element}")?;
    Ok(LineText::of(text))
}

// The canonical text of the JSON element of a table.
fn element_of(alloc: Global, run: &TableRun) -> Result<String, AllocError>
    ensures { IfOk result (λ text. string_bytes text ≡ element_text run.now) }
{
    let table = table_of(alloc, run)?;
    // One call while the table is held, so that it is dropped in one place.
    shown_text(alloc, &table)
}

// The canonical text of the element that shows a table.
fn shown_text(alloc: Global, table: &Table) -> Result<String, AllocError>
    requires { IsTable (table_value table.now) }
    ensures { IfOk result (λ text. string_bytes text ≡ compact_text (table_shown (table_value table.now))) }
{
    // A law, which runs nothing.
    shown_table_is_plain();
    let element = to_json(alloc, table)?;
    let text = element.to_string(alloc)?;
    Ok(text)
}
