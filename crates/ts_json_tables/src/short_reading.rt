//! Reading tables of the short form from JSON elements, by their fields.

ghost use Rattle.std.specs.Prelude.{◌≡◌, IfOk, IsTrue, true};
ghost use Rattle.serde_json.specs.View.{members_view};
ghost use Rattle.ts_fields.specs.Bodies.{page, page_sound};
ghost use Rattle.ts_fields.specs.Fitting.{shaped};
ghost use Rattle.ts_jtree.specs.Faults.{Answers};
ghost use Rattle.ts_json_tables.specs.HeldTables.{short, short_held};
ghost use Rattle.ts_json_tables.specs.TableReading;
ghost use Rattle.ts_json_tables.specs.TableReading.{sized_short, sized_tot};
ghost use Rattle.ts_json_tables.specs.TimeOffsets.{offset_held, tot_rows};

use crate::children::read_descrs;
use crate::short_pages::short_layout_named;
use crate::table::ShortTable;
use crate::time_offset::{TOT_ID, TimeOffset, bytes_are_small, tot_bytes, tot_fields};
use serde_json::{Map, Value};
use std::alloc::Global;
use ts_bits::DescriptorList;
use ts_fields::{Layout, write_body};
use ts_json_descr::read_element_body;
use ts_jtree::{
    JsonKind, ReadRefusal, check_keys, children, read_attributes, refuse_key, values_are_shaped,
};
use ts_table_rows::written_rows_are_whole;

/// The greatest number of bytes after section_length.
const MOST_PAYLOAD: usize = 4093;

/// A section of the short form with these bytes after section_length; where they are too many, `OutOfRange` on `#nodes`.
fn sized(alloc: Global, table_id: u8, payload: Vec<u8>) -> Result<ShortTable, ReadRefusal>
    ensures { Answers (λ t. short (short_held t)) result (sized_short table_id payload.items) }
{
    if payload.len() > MOST_PAYLOAD {
        return Err(refuse_key(alloc, "#nodes", JsonKind::OutOfRange));
    }
    Ok(ShortTable {
        table_id,
        private: true,
        payload,
    })
}

/// A table of a page, whose name was checked before.
#[tactic(auto, unfolding(crate::specs::TableReading::read_paged))]
fn read_paged(
    alloc: Global,
    layout: &Layout,
    members: &Map<String, Value>,
) -> Result<ShortTable, ReadRefusal>
    requires { IsTrue (page_sound (page layout.now)) }
    ensures { Answers (λ t. short (short_held t)) result
        (TableReading.read_paged (page layout.now) (members_view members.now.entries)) }
{
    let body = read_element_body(alloc, layout, members)?;
    // Laws, which run nothing.
    values_are_shaped();
    written_rows_are_whole();
    let payload = write_body(alloc, layout, &body)?;
    bytes_are_small(&payload);
    let table = sized(alloc, layout.tag, payload)?;
    Ok(table)
}

/// The fields and the descriptors of a TOT, whose name was checked before.
#[tactic(auto, unfolding(crate::specs::TableReading::read_tot_element))]
fn read_tot_element(alloc: Global, members: &Map<String, Value>) -> Result<TimeOffset, ReadRefusal>
    ensures read { Answers offset_held result
        (TableReading.read_tot_element (members_view members.now.entries)) }
    ensures shaped { IfOk result (λ t. shaped tot_rows (offset_held t).values ≡ true) }
{
    // A law, which runs nothing.
    values_are_shaped();
    let fields = tot_fields();
    check_keys(alloc, fields, members)?;
    let values = read_attributes(alloc, fields, members)?;
    let nodes = children(alloc, members)?;
    let descriptors = read_descrs(alloc, nodes)?;
    Ok(TimeOffset {
        values,
        descriptors: DescriptorList::of(descriptors),
    })
}

/// The section of a TOT.
fn tot_section(alloc: Global, offset: &TimeOffset) -> Result<ShortTable, ReadRefusal>
    requires { shaped tot_rows (offset_held offset.now).values ≡ true }
    ensures { Answers (λ t. short (short_held t)) result (sized_tot (offset_held offset.now)) }
{
    let Some(payload) = tot_bytes(alloc, offset)? else {
        return Err(refuse_key(alloc, "#nodes", JsonKind::OutOfRange));
    };
    Ok(ShortTable {
        table_id: TOT_ID,
        private: true,
        payload,
    })
}

/// A TOT, whose name was checked before.
#[tactic(auto, unfolding(crate::specs::TableReading::read_tot))]
fn read_tot(alloc: Global, members: &Map<String, Value>) -> Result<ShortTable, ReadRefusal>
    ensures { Answers (λ t. short (short_held t)) result
        (TableReading.read_tot (members_view members.now.entries)) }
{
    let offset = read_tot_element(alloc, members)?;
    let table = tot_section(alloc, &offset)?;
    Ok(table)
}

/// A table of the short form with this name.
pub fn read_short_named(
    alloc: Global,
    name: &str,
    members: &Map<String, Value>,
) -> Result<ShortTable, ReadRefusal>
    ensures { Answers (λ t. short (short_held t)) result
        (TableReading.read_short_named name.now (members_view members.now.entries)) }
{
    if name == "TOT" {
        return read_tot(alloc, members);
    }
    match short_layout_named(name) {
        Some(layout) => read_paged(alloc, layout, members),
        None => Err(refuse_key(alloc, "#name", JsonKind::UnknownKey)),
    }
}
