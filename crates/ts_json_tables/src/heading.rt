//! Reading the attributes of a table's element, one after another.

ghost use Rattle.std.specs.Prelude.{◌≡◌, ◌<◌, ◌≤◌, ◌++◌, [], ◌∷◌, map, length, option_map, IfOk, IfSome, IsTrue, true};
ghost use Rattle.std.specs.Option.{ForSome};
ghost use Rattle.serde_json.specs.View.{view, members_view};
ghost use Rattle.ts_fields.specs.Fitting.{are_bytes};
ghost use Rattle.ts_fields.specs.Layout.{held, row, rows_of};
ghost use Rattle.ts_fields.specs.SoundRows.{are_sound};
ghost use Rattle.ts_jtree.specs.Faults.{Answers};
ghost use Rattle.ts_table_rows.specs.TablePages.{table_page, page_sound};
ghost use Rattle.ts_json_tables.specs.HeadReading;
ghost use Rattle.ts_json_tables.specs.HeadReading.{heading_held, is_hex_row, is_number_row, number_bound};

use crate::rows::{
    ACTUAL, CURRENT, LAST_SECTION_NUMBER, NETWORK_PID, SECTION_NUMBER, VERSION, extension_field,
    table_id_field,
};
use serde_json::{Map, Value};
use std::alloc::Global;
use ts_fields::{Field, FieldValue};
use ts_jtree::{JsonKind, ReadRefusal, member, number_of_value, read_attributes, refuse_key};
use ts_table_rows::{TableHead, TableLayout};

/// The values of the attributes of a table.
#[derive(Drop)]
pub struct Heading {
    /// The fields of the section heads that the table keeps.
    pub head: TableHead,
    /// The values of the fields that are outside all items.
    pub values: Vec<FieldValue>,
    /// The PID of the entry with number 0, if there is one.
    pub network: Option<u16>,
}

/// The number of a single row; 0 where there is none.
fn only_number(values: &[FieldValue]) -> u64
    ensures { result ≡ HeadReading.only_number (map held values.now) }
{
    match values {
        [FieldValue::Number(number)] => *number,
        _ => 0,
    }
}

/// The attribute of a row that is a number.
#[tactic(auto, unfolding(crate::specs::HeadReading::read_number))]
pub fn read_number(
    alloc: Global,
    members: &Map<String, Value>,
    field: &Field,
) -> Result<u64, ReadRefusal>
    requires { is_number_row (row field.now) ≡ true }
    ensures read { Answers (λ n. n) result
        (HeadReading.read_number (row field.now) (members_view members.now.entries)) }
    ensures bound { IfOk result (λ n. n < number_bound (row field.now).kind) }
{
    let values = read_attributes(alloc, &[*field], members)?;
    Ok(only_number(&values))
}

/// The attribute of a row that is a number of at most 8 bits.
pub fn read_byte(
    alloc: Global,
    members: &Map<String, Value>,
    field: &Field,
) -> Result<u8, ReadRefusal>
    requires number { is_number_row (row field.now) ≡ true }
    requires small { number_bound (row field.now).kind ≤ 256 }
    ensures read { Answers (λ n. n) result
        (HeadReading.read_number (row field.now) (members_view members.now.entries)) }
    ensures bound { IfOk result (λ n. n < number_bound (row field.now).kind) }
{
    let number = read_number(alloc, members, field)?;
    Ok(number as u8)
}

/// The attribute of a row that is a number of at most 16 bits.
pub fn read_word(
    alloc: Global,
    members: &Map<String, Value>,
    field: &Field,
) -> Result<u16, ReadRefusal>
    requires number { is_number_row (row field.now) ≡ true }
    requires small { number_bound (row field.now).kind ≤ 65536 }
    ensures read { Answers (λ n. n) result
        (HeadReading.read_number (row field.now) (members_view members.now.entries)) }
    ensures bound { IfOk result (λ n. n < number_bound (row field.now).kind) }
{
    let number = read_number(alloc, members, field)?;
    Ok(number as u16)
}

/// The attribute of a row that is a Boolean.
#[tactic(auto, unfolding(crate::specs::HeadReading::read_truth))]
pub fn read_truth(
    alloc: Global,
    members: &Map<String, Value>,
    field: &Field,
) -> Result<bool, ReadRefusal>
    requires { is_number_row (row field.now) ≡ true }
    ensures { Answers (λ b. b) result
        (HeadReading.read_truth (row field.now) (members_view members.now.entries)) }
{
    let bit = read_number(alloc, members, field)?;
    Ok(bit == 1)
}

/// The bytes of a single row.
fn only_bytes(alloc: Global, values: &[FieldValue]) -> Result<Vec<u8>, ReadRefusal>
    ensures { Answers (λ b. b.items) result (Ok (HeadReading.only_bytes (map held values.now))) }
{
    match values {
        [FieldValue::Bytes(bytes)] => Ok(Vec::from_slice(alloc, bytes)?),
        _ => Ok(Vec::new(alloc)),
    }
}

/// The attribute of a row that is bytes.
#[tactic(auto, unfolding(crate::specs::HeadReading::read_bytes))]
pub fn read_bytes(
    alloc: Global,
    members: &Map<String, Value>,
    field: &Field,
) -> Result<Vec<u8>, ReadRefusal>
    requires { IsTrue (are_sound (row field.now ∷ [])) }
    ensures { Answers (λ b. b.items) result
        (HeadReading.read_bytes (row field.now) (members_view members.now.entries)) }
{
    let values = read_attributes(alloc, &[*field], members)?;
    only_bytes(alloc, &values)
}

/// The table_id, of those that the layout allows.
#[tactic(auto, unfolding(crate::specs::HeadReading::read_id))]
fn read_id(alloc: Global, members: &Map<String, Value>, ids: &[(u8, u8)]) -> Result<u8, ReadRefusal>
    ensures { Answers (λ n. n) result (HeadReading.read_id ids.now (members_view members.now.entries)) }
{
    match ids {
        [] => Ok(0),
        [range] => {
            if range.0 == range.1 {
                return Ok(range.0);
            }
            let field = table_id_field(*range);
            read_byte(alloc, members, &field)
        }
        [first, second, ..] => {
            let actual = read_truth(alloc, members, &ACTUAL)?;
            Ok(if actual { first.0 } else { second.0 })
        }
    }
}

/// table_id_extension; all ones where it is reserved.
#[tactic(auto, unfolding(crate::specs::HeadReading::read_extension))]
fn read_extension(
    alloc: Global,
    members: &Map<String, Value>,
    name: &'static str,
) -> Result<u16, ReadRefusal>
    ensures { Answers (λ n. n) result (HeadReading.read_extension name.now (members_view members.now.entries)) }
{
    if name.is_empty() {
        return Ok(0xFFFF);
    }
    let field = extension_field(name);
    read_word(alloc, members, &field)
}

/// The two numbers, where the first is not above the last; else `OutOfRange` on `last_section_number`.
fn numbers_in_order(alloc: Global, first: u8, last: u8) -> Result<(u8, u8), ReadRefusal>
    ensures { Answers (λ n. n) result (HeadReading.numbers_in_order first last) }
{
    if first <= last {
        return Ok((first, last));
    }
    Err(refuse_key(alloc, "last_section_number", JsonKind::OutOfRange))
}

/// section_number and last_section_number.
#[tactic(auto, unfolding(crate::specs::HeadReading::read_numbers))]
fn read_numbers(
    alloc: Global,
    members: &Map<String, Value>,
) -> Result<Option<(u8, u8)>, ReadRefusal>
    ensures { Answers (λ n. n) result (HeadReading.read_numbers (members_view members.now.entries)) }
{
    let first = read_byte(alloc, members, &SECTION_NUMBER)?;
    let last = read_byte(alloc, members, &LAST_SECTION_NUMBER)?;
    let numbers = numbers_in_order(alloc, first, last)?;
    Ok(Some(numbers))
}

/// section_number and last_section_number, where the table keeps them.
#[tactic(auto, unfolding(crate::specs::HeadReading::read_kept))]
pub fn read_kept(
    alloc: Global,
    members: &Map<String, Value>,
    kept: bool,
) -> Result<Option<(u8, u8)>, ReadRefusal>
    ensures { Answers (λ n. n) result (HeadReading.read_kept kept (members_view members.now.entries)) }
{
    if !kept {
        return Ok(None);
    }
    read_numbers(alloc, members)
}

/// Whether the PID of an entry with number 0 is there, in a table that may have such an entry.
pub fn names_network(members: &Map<String, Value>, one_zero: bool) -> bool
    ensures { result ≡ HeadReading.names_network one_zero (members_view members.now.entries) }
{
    one_zero && member(members, "network_PID").is_some()
}

/// The PID of the entry with number 0.
#[tactic(auto, unfolding(crate::specs::HeadReading::read_pid))]
fn read_pid(alloc: Global, members: &Map<String, Value>) -> Result<Option<u16>, ReadRefusal>
    ensures { Answers (λ n. n) result (HeadReading.read_pid (members_view members.now.entries)) }
{
    let pid = read_word(alloc, members, &NETWORK_PID)?;
    Ok(Some(pid))
}

/// The PID of the entry with number 0, where there is one.
#[tactic(auto, unfolding(crate::specs::HeadReading::read_network))]
fn read_network(
    alloc: Global,
    members: &Map<String, Value>,
    there: bool,
) -> Result<Option<u16>, ReadRefusal>
    ensures { Answers (λ n. n) result (HeadReading.read_network there (members_view members.now.entries)) }
{
    if !there {
        return Ok(None);
    }
    read_pid(alloc, members)
}

/// The attributes of a table of a layout.
#[tactic(auto, unfolding(crate::specs::HeadReading::read_heading))]
pub fn read_heading(
    alloc: Global,
    layout: &TableLayout,
    members: &Map<String, Value>,
) -> Result<Heading, ReadRefusal>
    requires { IsTrue (page_sound (table_page layout.now)) }
    ensures { Answers heading_held result
        (HeadReading.read_heading (table_page layout.now) (members_view members.now.entries)) }
{
    let version = read_byte(alloc, members, &VERSION)?;
    let current = read_truth(alloc, members, &CURRENT)?;
    let table_id = read_id(alloc, members, layout.ids)?;
    let extension = read_extension(alloc, members, layout.extension)?;
    let mut values = read_attributes(alloc, layout.common, members)?;
    let numbers = read_kept(alloc, members, layout.keeps_numbers)?;
    let mut others = read_attributes(alloc, layout.head, members)?;
    let there = names_network(members, layout.one_zero);
    let network = read_network(alloc, members, there)?;
    values.append(&mut others)?;
    let head = TableHead {
        table_id,
        extension,
        version,
        current,
        numbers,
    };
    Ok(Heading {
        head,
        values,
        network,
    })
}

/// Whether the given table_id is one of an EIT.
pub fn names_eit(members: &Map<String, Value>) -> bool
    ensures { result ≡ HeadReading.names_eit (members_view members.now.entries) }
{
    let Some(value) = member(members, "table_id") else {
        return false;
    };
    match number_of_value(value) {
        Some(id) => 0x4E <= id && id <= 0x6F,
        None => false,
    }
}
