//! Tests of the EIT: worked rows, and each call that allocates, once with enough memory.

use crate::compared::{are_so_many, got, same};
use crate::tables_of_bytes::{is_one_section, is_one_section_of, long_descriptors, run_of};
use std::process::Abort;
use ts_eit::{Eit, Event, EventList, Start};
use ts_section::{Section, TableRun};
use ts_table_rows::{TableFault, TableRefusal, TableRule};

/// An EIT of service 0x0101, section 1 of 0 to 2, with two events: the first on 1993-10-13 at 12:45:00 for 1:45:30,
/// the second without a start time.
static EIT: [u8; 47] = [
    0x4E, 0xF0, 0x2C, 0x01, 0x01, 0xC3, 0x01, 0x02, 0x00, 0x01, 0x20, 0xFA, 0x02, 0x4E, 0x00, 0x07,
    0xC0, 0x79, 0x12, 0x45, 0x00, 0x01, 0x45, 0x30, 0x90, 0x00, 0x00, 0x08, 0xFF, 0xFF, 0xFF, 0xFF,
    0xFF, 0x99, 0x59, 0x59, 0x00, 0x05, 0x41, 0x03, 0x00, 0x01, 0x01, 0xE9, 0x9C, 0x28, 0xF3,
];

/// An EIT as libdvbpsi writes it with an undefined start time: not all of its bits are ones.
static NO_START: [u8; 46] = [
    0x4E, 0xF0, 0x2B, 0x01, 0x03, 0xC3, 0x00, 0x00, 0x12, 0x34, 0x30, 0x01, 0x00, 0x4E, 0x60, 0x01,
    0x00, 0xFF, 0xFF, 0xF0, 0x00, 0x02, 0x00, 0x00, 0x00, 0x10, 0x4D, 0x0E, 0x65, 0x6E, 0x67, 0x09,
    0x4F, 0x6E, 0x20, 0x64, 0x65, 0x6D, 0x61, 0x6E, 0x64, 0x00, 0x01, 0x9A, 0x52, 0x34,
];

/// A copy of the EIT of these bytes.
fn copied_eit(rt: &(impl Abort + AllocGlobal)) -> Eit {
    let run = run_of(rt, &EIT);
    let eit = got(rt, Eit::read(rt.alloc(), &run));
    got(rt, eit.copy())
}

/// Checks the fields of that EIT.
fn is_the_eit(rt: &impl Abort, eit: &Eit) {
    let ids = (eit.table_id, eit.service_id, eit.stream_id);
    same(rt, ids, (0x4E, 0x0101, 1));
    same(rt, (eit.number, eit.last, eit.segment_last), (1, 2, 2));
    are_its_events(rt, eit.events.as_slice());
}

/// Checks its first event.
fn is_the_first(rt: &impl Abort, event: &Event) {
    let start = event.start.map(|start| (start.day, start.second));
    same(rt, start, Some((0xC079, 45_900)));
    same(rt, (event.duration, event.running), (6_330, 4));
}

/// Checks its events.
fn are_its_events(rt: &impl Abort, events: &[Event]) {
    are_so_many(rt, events.len(), 2);
    is_the_first(rt, &events[0]);
    same(rt, events[1].start.is_none(), true);
    same(rt, events[1].duration, 359_999);
}

#[test]
fn an_eit(rt: HostRuntime) {
    let eit = copied_eit(&rt);
    is_the_eit(&rt, &eit);
    is_one_section(&rt, &got(&rt, eit.sections(rt.alloc())), &EIT);
}

#[test]
fn a_invalid_start(rt: HostRuntime) {
    let run = run_of(&rt, &NO_START);
    let fault = Eit::read(rt.alloc(), &run).err();
    let wanted = TableFault::Broken {
        section: 0,
        offset: 16,
        rule: TableRule::Time,
    };
    same(&rt, fault, Some(wanted));
}

/// One event with 16 descriptors, the last of `last` bytes.
fn long_event(rt: &(impl Abort + AllocGlobal), last: usize) -> Event {
    let descriptors = long_descriptors(rt, 15, last);
    Event {
        event_id: 1,
        start: Some(Start {
            day: 40_587,
            second: 86_399,
        }),
        duration: 0,
        running: 0,
        free_ca: true,
        descriptors,
    }
}

/// An EIT with that event.
fn long_eit(rt: &(impl Abort + AllocGlobal), last: usize) -> Eit {
    let events = got(rt, vec![in rt.alloc(); long_event(rt, last)]);
    Eit {
        table_id: 0x6F,
        service_id: 1,
        version: 0,
        current: true,
        stream_id: 1,
        original_id: 1,
        number: 255,
        last: 255,
        segment_last: 255,
        last_table_id: 0x6F,
        events: EventList::of(events),
    }
}

/// The sections of that EIT.
fn long_sections(
    rt: &(impl Abort + AllocGlobal),
    last: usize,
) -> Result<Vec<Section>, TableRefusal> {
    long_eit(rt, last).sections(rt.alloc())
}

/// Checks the EIT that is read from sections.
fn are_read(rt: &(impl Abort + AllocGlobal), sections: Vec<Section>) {
    let run = got(rt, TableRun::of(sections));
    let again = got(rt, Eit::read(rt.alloc(), &run));
    same(rt, (again.number, again.events.as_slice().len()), (255, 1));
}

#[test]
fn the_longest_eit(rt: HostRuntime) {
    let past = long_sections(&rt, 210).err();
    same(&rt, past, Some(TableRefusal::TooLarge { bytes: 4094 }));
    let sections = got(&rt, long_sections(&rt, 209));
    is_one_section_of(&rt, &sections, 4096);
    are_read(&rt, sections);
}
