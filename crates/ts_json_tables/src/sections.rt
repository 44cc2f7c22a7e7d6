//! The sections of a table.

ghost use Rattle.std.specs.Prelude.{◌≡◌, ◌<◌, ◌≤◌, ◌-◌, ◌+◌, map, length, true, All, IfOk, IsTrue, if◌then◌else◌};
ghost use Rattle.std.specs.List.{list_all};
ghost use Rattle.ts_section.specs.WrittenSection.{long_section, short_section};
ghost use Rattle.ts_table_rows.specs.TablePages.{table_page};
ghost use Rattle.ts_table_rows.specs.TableSections.{Writes};
ghost use Rattle.ts_table_rows.specs.TableSections as rows;
ghost use Rattle.ts_table_rows.specs.TableValues.{table_held};
ghost use Rattle.ts_json_tables.specs.ElementRows;
ghost use Rattle.ts_json_tables.specs.HeldTables.{long_held, short, short_held, table_value};
ghost use Rattle.ts_json_tables.specs.ValidTables;
ghost use Rattle.ts_json_tables.specs.ValidTables.{IsLaid, IsTable};
ghost use Rattle.ts_json_tables.specs.RunTables;
ghost use Rattle.ts_json_tables.specs.RunTables.{long_head, long_sections, numbered, numbers_used, sections_of_table};

use crate::table::{LaidTable, LongTable, ShortTable, Table};
use crate::values::is_eit_id;
use std::alloc::{AllocError, Global};
use ts_section::{LongHead, Section};
use ts_table_rows::{TableRefusal, write_table};

/// The sections of a table of a layout.
fn laid_sections(alloc: Global, table: &LaidTable) -> Result<Vec<Section>, TableRefusal>
    requires { IsLaid (table_page table.now.layout.now) (table_held table.now.held) }
    ensures { Writes (λ v. v.items) result
        (rows.sections_of (table_page table.now.layout.now) (table_held table.now.held)) }
{
    write_table(alloc, table.layout, &table.held)
}

/// The section of the short form.
fn one_section(alloc: Global, table: &ShortTable) -> Result<Vec<Section>, TableRefusal>
    requires { ValidTables.is_short (short_held table.now) ≡ true }
    ensures { Writes (λ v. v.items) result (sections_of_table (short (short_held table.now))) }
{
    let section = Section::short(alloc, table.table_id, table.private, &table.payload)?;
    Ok(vec![in alloc; section]?)
}

/// The first and the last section number: an EIT's own, or from 0.
fn first_and_last(table: &LongTable) -> (u8, u8)
    requires { ValidTables.is_long (long_held table.now) ≡ true }
    ensures { result ≡ numbers_used (long_held table.now) }
{
    if is_eit_id(table.table_id) {
        return (table.section_number, table.last_section_number);
    }
    (0, (table.payloads.len() - 1) as u8)
}

/// The section of the long form with this number and this body.
fn section_with(
    alloc: Global,
    table: &LongTable,
    last: u8,
    number: u8,
    payload: &[u8],
) -> Result<Section, AllocError>
    requires valid_id { table.now.table_id < 255 }
    requires version { table.now.version < 32 }
    requires number { number ≤ last }
    requires room { length payload.now ≤ 4084 }
    ensures { IfOk result (λ s. s ≡ long_section (long_head (long_held table.now) last number) payload.now) }
{
    let head = LongHead {
        table_id: table.table_id,
        private: table.private,
        extension: table.table_id_extension,
        version: table.version,
        current: table.current,
        number,
        last,
    };
    Section::long(alloc, head, payload)
}

/// The sections of the long form with their numbers.
fn numbered_sections(alloc: Global, table: &LongTable) -> Result<Vec<Section>, TableRefusal>
    requires { ValidTables.is_long (long_held table.now) ≡ true }
    ensures { Writes (λ v. v.items) result (Ok (long_sections (long_held table.now))) }
{
    let (first, last) = first_and_last(table);
    let mut number = u16::from(first);
    let mut sections = Vec::new(alloc);
    for payload in &table.payloads {
        let section = section_with(alloc, table, last, number as u8, payload)?;
        sections.push(section)?;
        number += 1;
    }
    Ok(sections)
}

/// The sections of a table. Tables of a layout are divided as `write_table` divides them; a table given by its bytes
/// has the sections that it was given.
pub fn table_sections(alloc: Global, table: &Table) -> Result<Vec<Section>, TableRefusal>
    requires { IsTable (table_value table.now) }
    ensures { Writes (λ v. v.items) result (sections_of_table (table_value table.now)) }
{
    match table {
        Table::Laid(table) => laid_sections(alloc, table),
        Table::Short(table) => one_section(alloc, table),
        Table::Long(table) => numbered_sections(alloc, table),
    }
}
