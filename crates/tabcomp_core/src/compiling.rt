//! Compiling: from a JSON text to the sections of its tables.
//!
//! What is compiled is a `Vec<u8>`, and what is decompiled a `String`. Types of their own around them would say no
//! more: a clause sees the bytes of both, and who writes them into a file needs bytes.

ghost use Rattle.std.specs.Prelude.{◌≡◌, ◌++◌, map, option_map, if◌then◌else◌, Some, None, All, OnOk, IfOk};
ghost use Rattle.std.specs.Str.{is_utf8};
ghost use Rattle.serde_json.specs.Read.{read};
ghost use Rattle.std.specs.List.{concat};
ghost use Rattle.serde_json.specs.View.{view, items_view};
ghost use Rattle.ts_jtree.specs.Faults.{Answers, at_child};
ghost use Rattle.ts_json_tables.specs.HeldTables.{table_value};
ghost use Rattle.ts_json_tables.specs.ValidTables.{IsTable};
ghost use Rattle.ts_json_tables.specs.RunTables.{sections_of_table};
ghost use Rattle.ts_json_tables.specs.TableReading.{read_each, table_read};
ghost use Rattle.tabcomp_core.specs.Compiling;
ghost use Rattle.tabcomp_core.specs.Compiling.{Compiles, compiled, json_value, of_tables, tables_bytes, value_or_not, TakesTable};

use crate::fault::CompileFault;
use serde_json::Value;
use std::alloc::{AllocError, Global};
use std::str;
use ts_json_tables::{Table, table_sections, tables_of_json};
use ts_jtree::{ReadRefusal, read_element};
use ts_section::Section;
use ts_table_rows::TableRefusal;

/// The text with these bytes as its UTF-8; none where they are not UTF-8.
fn utf8_of(bytes: &[u8]) -> Option<&str>
    ensures { option_map (λ text. text.now) result ≡ (if is_utf8 bytes.now then Some bytes.now else None) }
{
    match str::from_utf8(bytes) {
        Ok(text) => Some(text),
        Err(_) => None,
    }
}

/// The JSON value of a text.
fn read_text(alloc: Global, text: &str) -> Result<Value, CompileFault>
    ensures { Compiles view result (value_or_not (read text.now)) }
{
    match Value::from_str(alloc, text) {
        Ok(value) => Ok(value),
        Err(error) if error.is_memory() => Err(CompileFault::NoMemory),
        Err(_) => Err(CompileFault::NotJson),
    }
}

/// The JSON value of bytes.
fn read_value(alloc: Global, text: &[u8]) -> Result<Value, CompileFault>
    ensures { Compiles view result (json_value text.now) }
{
    let Some(text) = utf8_of(text) else {
        return Err(CompileFault::NotJson);
    };
    read_text(alloc, text)
}

/// The tables of the root.
#[tactic(auto, unfolding(crate::specs::Compiling::tables_read))]
fn read_tables(alloc: Global, value: &Value) -> Result<Vec<Table>, ReadRefusal>
    ensures read { Answers (λ v. map table_value v.items) result (Compiling.tables_read (view value.now)) }
    ensures valid { IfOk result (λ v. All (λ t. IsTable (table_value t)) v.items) }
{
    let (_, nodes) = read_element(alloc, "tsduck", &[], value)?;
    tables_of_json(alloc, nodes)
}

/// Appends the bytes of sections.
fn push_sections(bytes: &mut Vec<u8>, sections: &[Section]) -> Result<(), AllocError>
    ensures { OnOk result (bytes.new.items ≡ bytes.old.items ++ concat sections.now) }
{
    for section in sections {
        bytes.extend_from_slice(section.bytes())?;
    }
    Ok(())
}

/// Appends the bytes of the sections of the table with this number.
fn push_table(
    alloc: Global,
    bytes: &mut Vec<u8>,
    place: usize,
    table: &Table,
) -> Result<(), CompileFault>
    requires { IsTable (table_value table.now) }
    ensures { TakesTable place bytes.old.items bytes.new.items (sections_of_table (table_value table.now)) result }
{
    let sections = match table_sections(alloc, table) {
        Ok(sections) => sections,
        Err(TableRefusal::NoMemory) => return Err(CompileFault::NoMemory),
        Err(refusal) => {
            return Err(CompileFault::TooLarge {
                table: place,
                refusal,
            });
        }
    };
    push_sections(bytes, &sections)?;
    Ok(())
}

/// The bytes of the sections of tables, or the first table that has none.
fn write_tables(alloc: Global, tables: &[Table]) -> Result<Vec<u8>, CompileFault>
    requires { All (λ t. IsTable (table_value t)) tables.now }
    ensures { Compiles (λ v. v.items) result (tables_bytes 0 (map table_value tables.now)) }
{
    let mut bytes = Vec::new(alloc);
    let mut place = 0;
    for table in tables {
        push_table(alloc, &mut bytes, place, table)?;
        place += 1;
    }
    Ok(bytes)
}

/// The bytes of the sections of the tables of a value.
fn write_value(alloc: Global, value: &Value) -> Result<Vec<u8>, CompileFault>
    ensures { Compiles (λ v. v.items) result (of_tables (Compiling.tables_read (view value.now))) }
{
    match read_tables(alloc, value) {
        Ok(tables) => write_tables(alloc, &tables),
        Err(ReadRefusal::NoMemory) => Err(CompileFault::NoMemory),
        Err(ReadRefusal::Json(fault)) => Err(CompileFault::Json(fault)),
    }
}

/// The bytes of the sections of the tables of a text, joined. `NotJson` comes first, then the first fault of the value,
/// then the first table that has no sections.
pub fn compile(alloc: Global, text: &[u8]) -> Result<Vec<u8>, CompileFault>
    ensures { Compiles (λ v. v.items) result (compiled text.now) }
{
    let value = read_value(alloc, text)?;
    write_value(alloc, &value)
}
