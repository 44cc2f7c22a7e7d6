//! Reading a run of sections as a table.

ghost use Rattle.std.specs.Prelude.{◌≡◌, ◌≤◌, ◌∷◌, length, true, IsTrue, IfOk};
ghost use Rattle.ts_table_rows.specs.BodyReading.{seen_so_far};
ghost use Rattle.ts_table_rows.specs.RunReading;
ghost use Rattle.ts_table_rows.specs.RunReading.{Tells, read_run, unseen};
ghost use Rattle.ts_table_rows.specs.TableFitting.{table_fits};
ghost use Rattle.ts_table_rows.specs.TablePages;
ghost use Rattle.ts_table_rows.specs.TablePages.{table_page, page_sound};
ghost use Rattle.ts_table_rows.specs.TableValues.{joined, body_held, table_held};

use crate::fault::{BodyStop, TableFault, TableRule};
use crate::layout::TableLayout;
use crate::read_body::{SeenSoFar, read_body, with_more};
use crate::read_laws::read_tables_fit;
use crate::table::{Table, TableBody, TableHead};
use std::alloc::{AllocError, Global};
use ts_bits::DescriptorList;
use ts_fields::BitReader;
use ts_section::{LONG_BODY_PLACE, Section, TableRun};

/// A fault at a byte of a section of the run.
fn broken(section: usize, offset: usize, rule: TableRule) -> TableFault
    ensures { result ≡ RunReading.fault_at section offset rule }
{
    TableFault::Broken {
        section,
        offset,
        rule,
    }
}

/// A stop in the body of a section of `size` bytes, as a fault of the run.
fn body_fault(stop: BodyStop, section: usize, size: usize) -> TableFault
    requires { size ≤ 4096 }
    ensures { result ≡ RunReading.body_fault stop section size }
{
    match stop {
        BodyStop::NoMemory => TableFault::NoMemory,
        BodyStop::At { rule, left } => {
            let offset = LONG_BODY_PLACE + (8 * size).saturating_sub(left) / 8;
            broken(section, offset, rule)
        }
    }
}

/// Reads one section of a run, and returns what the sections have shown so far.
#[tactic(auto, unfolding(crate::specs::RunReading::read_section))]
fn read_section(
    alloc: Global,
    layout: &TableLayout,
    seen: SeenSoFar,
    place: usize,
    section: &Section,
) -> Result<(TableBody, SeenSoFar), TableFault>
    requires { IsTrue (page_sound (table_page layout.now)) }
    ensures { Tells (λ x. (body_held x.0, seen_so_far x.1)) result
        (RunReading.read_section (table_page layout.now) (seen_so_far seen) place section.now) }
{
    if section.bytes().len() > 3 + usize::from(layout.most) {
        return Err(broken(place, 1, TableRule::TooLong));
    }
    let bytes = section.body();
    match read_body(alloc, layout, seen, BitReader::of(bytes)) {
        Ok(read) => Ok(read),
        Err(stop) => Err(body_fault(stop, place, bytes.len())),
    }
}

/// The lists of one body and of the next, joined, with the values of the first.
fn join(body: TableBody, next: TableBody) -> Result<TableBody, AllocError>
    ensures { IfOk result (λ b. body_held b ≡ joined (body_held body) (body_held next)) }
{
    let descriptors = with_more(body.descriptors.into_vec(), next.descriptors.into_vec())?;
    let items = with_more(body.items, next.items)?;
    Ok(TableBody {
        values: body.values,
        descriptors: DescriptorList::of(descriptors),
        items,
    })
}

/// Reads the sections of a run, with their lists joined.
fn read_sections(
    alloc: Global,
    layout: &TableLayout,
    first: &Section,
    others: &[Section],
) -> Result<TableBody, TableFault>
    requires { IsTrue (page_sound (table_page layout.now)) }
    ensures { Tells body_held result
        (RunReading.read_sections (table_page layout.now) unseen 0 (first.now ∷ others.now)) }
{
    let nothing = SeenSoFar {
        first: None,
        zero: false,
    };
    let (mut body, mut seen) = read_section(alloc, layout, nothing, 0, first)?;
    let mut place = 1;
    for section in others {
        let (next, now) = read_section(alloc, layout, seen, place, section)?;
        body = join(body, next)?;
        seen = now;
        place += 1;
    }
    Ok(body)
}

/// Whether a table_id is in one of these ranges.
fn has_id(ids: &[(u8, u8)], id: u8) -> bool
    ensures { result ≡ TablePages.has_id ids.now id }
{
    ids.iter().any(|range| range.0 <= id && id <= range.1)
}

/// What a table keeps of the head of its first section; `None` where the section is not of the table.
fn table_head(layout: &TableLayout, section: &Section) -> Option<TableHead>
    ensures { result ≡ RunReading.table_head (table_page layout.now) section.now }
{
    let head = section.head()?;
    if !has_id(layout.ids, head.table_id) {
        return None;
    }
    let numbers = if layout.keeps_numbers {
        Some((head.number, head.last))
    } else {
        None
    };
    Some(TableHead {
        table_id: head.table_id,
        extension: head.extension,
        version: head.version,
        current: head.current,
        numbers,
    })
}

/// Whether sections follow the first one of a table with one section only.
fn are_too_many(layout: &TableLayout, others: &[Section]) -> bool
    ensures { result ≡ RunReading.too_many (table_page layout.now) others.now }
{
    layout.single && 0 < others.len()
}

/// Reads a run as a table of this layout. A fault has the first rule that the run breaks.
pub fn read_table(alloc: Global, layout: &TableLayout, run: &TableRun) -> Result<Table, TableFault>
    requires { IsTrue (page_sound (table_page layout.now)) }
    ensures read { Tells table_held result (read_run (table_page layout.now) run.now) }
    ensures fits { IfOk result (λ t. table_fits (table_page layout.now) (table_held t) ≡ true) }
{
    // It runs nothing: the proof cites it.
    read_tables_fit();
    let Some((first, others)) = run.sections().split_first() else {
        return Err(broken(0, 0, TableRule::WrongTable));
    };
    let Some(head) = table_head(layout, first) else {
        return Err(broken(0, 0, TableRule::WrongTable));
    };
    if are_too_many(layout, others) {
        return Err(broken(0, 0, TableRule::Sections));
    }
    let body = read_sections(alloc, layout, first, others)?;
    Ok(Table { head, body })
}
