//! Reading tables from JSON elements.

ghost use Rattle.std.specs.Prelude.{◌≡◌, ◌++◌, ◌∷◌, [], map, All, IfOk, IsTrue, length};
ghost use Rattle.serde_json.specs.View.{view, items_view, members_view};
ghost use Rattle.ts_jtree.specs.Faults.{Answers, at_child};
ghost use Rattle.ts_table_rows.specs.TablePages.{table_page, page_sound};
ghost use Rattle.ts_table_rows.specs.TableValues.{item_held};
ghost use Rattle.ts_table_pages.specs.PatEntries.{network_items};
ghost use Rattle.ts_json_tables.specs.HeldTables.{laid_value, long, long_held, short, short_held, table_value};
ghost use Rattle.ts_json_tables.specs.ValidTables.{IsTable};
ghost use Rattle.ts_json_tables.specs.TableReading;
ghost use Rattle.ts_json_tables.specs.TableReading.{kept_or_none, read_by_name, read_each, sections_counted, table_read};

use crate::children::{read_children, read_payloads};
use crate::heading::{
    names_eit, names_network, read_byte, read_bytes, read_heading, read_kept, read_truth, read_word,
};
use crate::known::layout_named;
use crate::rows::{
    ANY_EXTENSION, ANY_TABLE_ID, CURRENT, PRIVATE, SHORT_PAYLOAD, VERSION, element_rows, long_rows,
    short_rows,
};
use crate::short_reading::read_short_named;
use crate::table::{LaidTable, LongTable, ShortTable, Table};
use serde_json::{Map, Value};
use std::alloc::{AllocError, Global};
use ts_bits::DescriptorList;
use ts_fields::FieldValue;
use ts_jtree::{
    JsonKind, ReadRefusal, at_child, check_keys, children, element_name, members, no_children,
    refuse_key,
};
use ts_table_rows::{TableBody, TableItem, TableLayout};

/// The entry with number 0 and this PID as an item, if there is one.
fn network_rows(alloc: Global, network: Option<u16>) -> Result<Vec<TableItem>, AllocError>
    ensures { IfOk result (λ v. map item_held v.items ≡ network_items network) }
{
    let Some(pid) = network else {
        return Ok(Vec::new(alloc));
    };
    let values = vec![in alloc; FieldValue::Number(0), FieldValue::Number(u64::from(pid))]?;
    let descriptors = DescriptorList::of(Vec::new(alloc));
    Ok(vec![in alloc;
        TableItem {
            values,
            descriptors
        },
    ]?)
}

/// A table of a layout, whose name was checked before.
#[tactic(auto, unfolding(crate::specs::TableReading::read_laid))]
fn read_laid(
    alloc: Global,
    layout: &'static TableLayout,
    members: &Map<String, Value>,
) -> Result<LaidTable, ReadRefusal>
    requires { IsTrue (page_sound (table_page layout.now)) }
    ensures { Answers laid_value result
        (TableReading.read_laid (table_page layout.now) (members_view members.now.entries)) }
{
    let network = names_network(members, layout.one_zero);
    let rows = element_rows(alloc, layout, network)?;
    check_keys(alloc, &rows, members)?;
    let heading = read_heading(alloc, layout, members)?;
    let nodes = children(alloc, members)?;
    let mut found = read_children(alloc, layout, nodes)?;
    let mut items = network_rows(alloc, heading.network)?;
    items.append(&mut found.items)?;
    let body = TableBody {
        values: heading.values,
        descriptors: DescriptorList::of(found.descriptors),
        items,
    };
    Ok(LaidTable {
        layout,
        held: ts_table_rows::Table {
            head: heading.head,
            body,
        },
    })
}

/// A section of the short form.
#[tactic(auto, unfolding(crate::specs::TableReading::read_short))]
fn read_short(alloc: Global, members: &Map<String, Value>) -> Result<ShortTable, ReadRefusal>
    ensures { Answers (λ t. short (short_held t)) result
        (TableReading.read_short (members_view members.now.entries)) }
{
    check_keys(alloc, &short_rows(), members)?;
    let table_id = read_byte(alloc, members, &ANY_TABLE_ID)?;
    let private = read_truth(alloc, members, &PRIVATE)?;
    let payload = read_bytes(alloc, members, &SHORT_PAYLOAD)?;
    let nodes = children(alloc, members)?;
    no_children(alloc, nodes)?;
    Ok(ShortTable {
        table_id,
        private,
        payload,
    })
}

/// Whether a table may have this number of sections.
fn is_valid_count(eit: bool, count: usize) -> bool
    ensures { result ≡ TableReading.is_valid_count eit count }
{
    if eit {
        count == 1
    } else {
        1 <= count && count <= 256
    }
}

/// A table given by its bytes has 1 to 256 sections as children, an EIT one: else `OutOfRange` on `#nodes`.
fn counted(alloc: Global, eit: bool, nodes: &[Value]) -> Result<(), ReadRefusal>
    ensures { Answers (λ _. items_view nodes.now) result (sections_counted eit (items_view nodes.now)) }
{
    if !is_valid_count(eit, nodes.len()) {
        return Err(refuse_key(alloc, "#nodes", JsonKind::OutOfRange));
    }
    Ok(())
}

/// The section numbers of a table; 0 and 0 where it keeps none.
fn numbers_or_none(numbers: Option<(u8, u8)>) -> (u8, u8)
    ensures { result ≡ kept_or_none numbers }
{
    match numbers {
        Some(numbers) => numbers,
        None => (0, 0),
    }
}

/// The attributes of sections of the long form.
#[tactic(auto, unfolding(crate::specs::TableReading::read_long_head))]
fn read_long_head(
    alloc: Global,
    eit: bool,
    members: &Map<String, Value>,
) -> Result<LongTable, ReadRefusal>
    ensures { Answers long_held result
        (TableReading.read_long_head eit (members_view members.now.entries)) }
{
    let version = read_byte(alloc, members, &VERSION)?;
    let current = read_truth(alloc, members, &CURRENT)?;
    let table_id = read_byte(alloc, members, &ANY_TABLE_ID)?;
    let table_id_extension = read_word(alloc, members, &ANY_EXTENSION)?;
    let private = read_truth(alloc, members, &PRIVATE)?;
    let numbers = read_kept(alloc, members, eit)?;
    let (section_number, last_section_number) = numbers_or_none(numbers);
    Ok(LongTable {
        version,
        current,
        table_id,
        table_id_extension,
        private,
        section_number,
        last_section_number,
        payloads: Vec::new(alloc),
    })
}

/// Sections of the long form.
#[tactic(auto, unfolding(crate::specs::TableReading::read_long))]
fn read_long(alloc: Global, members: &Map<String, Value>) -> Result<LongTable, ReadRefusal>
    ensures { Answers (λ t. long (long_held t)) result
        (TableReading.read_long (members_view members.now.entries)) }
{
    let eit = names_eit(members);
    let rows = long_rows(alloc, eit)?;
    check_keys(alloc, &rows, members)?;
    let mut table = read_long_head(alloc, eit, members)?;
    let nodes = children(alloc, members)?;
    counted(alloc, eit, nodes)?;
    table.payloads = read_payloads(alloc, nodes)?;
    Ok(table)
}

/// The table with this name.
fn read_named(alloc: Global, name: &str, members: &Map<String, Value>) -> Result<Table, ReadRefusal>
    ensures { Answers table_value result (read_by_name name.now (members_view members.now.entries)) }
{
    if name == "generic_short_table" {
        let table = read_short(alloc, members)?;
        return Ok(Table::Short(table));
    }
    if name == "generic_long_table" {
        let table = read_long(alloc, members)?;
        return Ok(Table::Long(table));
    }
    let Some(layout) = layout_named(name) else {
        let table = read_short_named(alloc, name, members)?;
        return Ok(Table::Short(table));
    };
    let table = read_laid(alloc, layout, members)?;
    Ok(Table::Laid(table))
}

/// The table of an element, or the first fault of the element and its children.
#[tactic(auto, unfolding(crate::specs::TableReading::table_read))]
pub fn of_json(alloc: Global, value: &Value) -> Result<Table, ReadRefusal>
    ensures read { Answers table_value result (table_read (view value.now)) }
    ensures valid { IfOk result (λ t. IsTable (table_value t)) }
{
    let members = members(alloc, value)?;
    let name = element_name(alloc, members)?;
    read_named(alloc, name, members)
}

/// The table that is the child with this number.
fn read_table_at(alloc: Global, place: usize, value: &Value) -> Result<Table, ReadRefusal>
    ensures read { Answers table_value result (at_child place (table_read (view value.now))) }
    ensures valid { IfOk result (λ t. IsTable (table_value t)) }
{
    match of_json(alloc, value) {
        Ok(table) => Ok(table),
        Err(refusal) => Err(at_child(alloc, place, refusal)),
    }
}

/// The tables of elements, each a child of one element; a fault has the child's number, from 0, first in its path.
pub fn tables_of_json(alloc: Global, nodes: &[Value]) -> Result<Vec<Table>, ReadRefusal>
    ensures read { Answers (λ v. map table_value v.items) result (read_each table_read 0 (items_view nodes.now)) }
    ensures valid { IfOk result (λ v. All (λ t. IsTable (table_value t)) v.items) }
{
    let mut tables = Vec::new(alloc);
    let mut place = 0;
    for value in nodes {
        let table = read_table_at(alloc, place, value)?;
        tables.push(table)?;
        place += 1;
    }
    Ok(tables)
}
