//! Tests of tables with made-up layouts, which are read and written; each call once with enough memory.

ghost use Rattle.std.specs.Prelude.{IsTrue};
ghost use Rattle.ts_table_rows.specs.TablePages.{table_page, page_sound};

use crate::compared::{are_so_many, got, same, same_bytes};
use std::process::Abort;
use ts_fields::{Field, Kind};
use ts_section::{LongHead, Section, TableRun};
use ts_table_rows::{
    ItemForm, LoopForm, TableFault, TableLayout, TableRule, read_table, write_table,
};

macro_rules! rows {
    ($($kind:expr),*) => {
        &[$(Field { name: "", kind: $kind, absent: None, range: None }),*]
    };
}

/// Entries of a number and a PID, of which one may have the number 0.
static ENTRIES: TableLayout = TableLayout {
    name: "entries",
    ids: &[(0, 0)],
    extension: "",
    private_bit: false,
    most: 21,
    single: false,
    keeps_numbers: false,
    common: &[],
    head: &[],
    loop_form: LoopForm::Absent,
    items: Some(ItemForm {
        name: "entry",
        rows: rows![Kind::Number(16), Kind::Free(3), Kind::Number(13)],
        described: false,
        counted: false,
    }),
    one_zero: true,
};

/// Descriptors and transport streams, both with a length before them, as in a NIT.
static STREAMS: TableLayout = TableLayout {
    name: "streams",
    ids: &[(0x40, 0x41)],
    extension: "",
    private_bit: true,
    most: 1021,
    single: false,
    keeps_numbers: false,
    common: &[],
    head: rows![Kind::Free(4)],
    loop_form: LoopForm::Counted,
    items: Some(ItemForm {
        name: "stream",
        rows: rows![Kind::Number(16), Kind::Number(16), Kind::Free(4)],
        described: true,
        counted: true,
    }),
    one_zero: false,
};

/// Services after a number that all sections have in common, as in an SDT.
static SERVICES: TableLayout = TableLayout {
    name: "services",
    ids: &[(0x42, 0x42), (0x46, 0x46)],
    extension: "",
    private_bit: true,
    most: 1021,
    single: false,
    keeps_numbers: false,
    common: rows![Kind::Number(16)],
    head: rows![Kind::Free(8)],
    loop_form: LoopForm::Absent,
    items: Some(ItemForm {
        name: "service",
        rows: rows![
            Kind::Number(16),
            Kind::Free(6),
            Kind::Flag,
            Kind::Flag,
            Kind::Number(3),
            Kind::Flag
        ],
        described: true,
        counted: false,
    }),
    one_zero: false,
};

/// The layout of entries. The content of a `static` is written into each function that names it.
fn entries() -> &'static TableLayout
    ensures { IsTrue (page_sound (table_page result.now)) }
{
    &ENTRIES
}

/// The layout of streams.
fn streams() -> &'static TableLayout
    ensures { IsTrue (page_sound (table_page result.now)) }
{
    &STREAMS
}

/// The layout of services.
fn services() -> &'static TableLayout
    ensures { IsTrue (page_sound (table_page result.now)) }
{
    &SERVICES
}

/// The section with this body, the section_number `number` and the last_section_number `last`.
fn section(
    rt: &(impl Abort + AllocGlobal),
    table_id: u8,
    body: &[u8],
    number: usize,
    last: usize,
) -> Section {
    let last = u8::try_from(last).unwrap_or(255);
    let head = LongHead {
        table_id: table_id.min(254),
        private: true,
        extension: 1,
        version: 3,
        current: true,
        number: u8::try_from(number).unwrap_or(255).min(last),
        last,
    };
    got(
        rt,
        Section::long(rt.alloc(), head, &body[..body.len().min(4084)]),
    )
}

/// The sections with these bodies, as one table.
fn run_of(rt: &(impl Abort + AllocGlobal), table_id: u8, bodies: &[&[u8]]) -> TableRun {
    let last = bodies.len().saturating_sub(1);
    let mut sections = Vec::new(rt.alloc());
    for body in bodies {
        let section = section(rt, table_id, body, sections.len(), last);
        got(rt, sections.push(section));
    }
    got(rt, TableRun::of(sections))
}

/// A table, the bodies of its sections, and where they break which rule.
type BrokenRow = (u8, &'static [&'static [u8]], (usize, usize, TableRule));

/// Checks the first broken rule of sections.
fn breaks(rt: &(impl Abort + AllocGlobal), layout: &TableLayout, row: &BrokenRow)
    requires { IsTrue (page_sound (table_page layout.now)) }
{
    let (table_id, bodies, at) = *row;
    let run = run_of(rt, table_id, bodies);
    let found = read_table(rt.alloc(), layout, &run).err();
    same(rt, found, Some(broken(at)));
}

/// A rule that is broken in a section, at an offset.
fn broken(at: (usize, usize, TableRule)) -> TableFault {
    let (section, offset, rule) = at;
    TableFault::Broken {
        section,
        offset,
        rule,
    }
}

/// The faults of entries.
static ENTRY_FAULTS: [BrokenRow; 3] = [
    (1, &[&[]], (0, 0, TableRule::WrongTable)),
    (0, &[&[0, 1, 0, 2, 0]], (0, 12, TableRule::Loop)),
    (
        0,
        &[&[0, 0, 0, 2], &[0, 0, 0, 3]],
        (1, 8, TableRule::Network),
    ),
];

/// The faults of entries.
fn entry_faults() -> &'static [BrokenRow] {
    &ENTRY_FAULTS
}

/// The faults of streams.
static STREAM_FAULTS: [BrokenRow; 3] = [
    (0x40, &[&[0xF0]], (0, 8, TableRule::Short)),
    (0x40, &[&[0xF0, 1, 0x52]], (0, 10, TableRule::Loop)),
    (
        0x40,
        &[&[0xF0, 0, 0xF0, 0, 0xAA]],
        (0, 12, TableRule::Trailing),
    ),
];

/// The faults of streams.
fn stream_faults() -> &'static [BrokenRow] {
    &STREAM_FAULTS
}

/// The faults of services.
static SERVICE_FAULTS: [BrokenRow; 2] = [
    (0x42, &[&[0, 7, 0xFF], &[0, 8]], (1, 8, TableRule::Mixed)),
    (0x42, &[&[0, 7]], (0, 10, TableRule::Short)),
];

/// The faults of services.
fn service_faults() -> &'static [BrokenRow] {
    &SERVICE_FAULTS
}

/// Checks rows of faults.
fn break_all(rt: &(impl Abort + AllocGlobal), layout: &TableLayout, rows: &[BrokenRow])
    requires { IsTrue (page_sound (table_page layout.now)) }
{
    for row in rows {
        breaks(rt, layout, row);
    }
}

#[test]
fn broken_rules(rt: HostRuntime) {
    break_all(&rt, entries(), entry_faults());
    break_all(&rt, streams(), stream_faults());
    break_all(&rt, services(), service_faults());
}

/// The sections as which a table is written that was read from sections with these bodies.
fn again(
    rt: &(impl Abort + AllocGlobal),
    layout: &TableLayout,
    table_id: u8,
    bodies: &[&[u8]],
) -> Vec<Section>
    requires { IsTrue (page_sound (table_page layout.now)) }
{
    let run = run_of(rt, table_id, bodies);
    let table = got(rt, read_table(rt.alloc(), layout, &run));
    got(rt, write_table(rt.alloc(), layout, &table))
}

/// Checks the bodies of sections.
fn have_bodies(rt: &impl Abort, sections: &[Section], bodies: &[&[u8]]) {
    are_so_many(rt, sections.len(), bodies.len());
    for (section, body) in sections.iter().zip(bodies) {
        same_bytes(rt, section.body(), body);
    }
}

/// Two bodies.
type Bodies = [&'static [u8]; 2];

/// Entries that leave room in their sections.
static FEW: Bodies = [&[0, 1, 0, 2], &[0, 2, 0, 3, 0, 3, 0, 4, 0, 4, 0, 5]];

/// The same, in sections that are filled.
static FILLED: Bodies = [
    &[0, 1, 0xE0, 2, 0, 2, 0xE0, 3, 0, 3, 0xE0, 4],
    &[0, 4, 0xE0, 5],
];

/// Checks how entries are written.
fn entries_fill(rt: &(impl Abort + AllocGlobal)) {
    let entries = again(rt, entries(), 0, &FEW);
    have_bodies(rt, &entries, &FILLED);
}

/// Checks how streams are written.
fn streams_fill(rt: &(impl Abort + AllocGlobal)) {
    let body = [0xF0, 3, 0x52, 1, 9, 0xF0, 8, 0, 1, 0, 2, 0xF0, 2, 0x0A, 0];
    let streams = again(rt, streams(), 0x41, &[&body]);
    have_bodies(rt, &streams, &[&body]);
}

#[test]
fn filled_sections(rt: HostRuntime) {
    entries_fill(&rt);
    let none = again(&rt, entries(), 0, &[&[]]);
    are_so_many(&rt, none.len(), 1);
    streams_fill(&rt);
}
