//! The EIT of DVB, field by field.

use crate::descriptors::write_descriptors;
use crate::page::PidPage;
use crate::written::write_written;
use ts_eit::{Eit, Event, Start};
use ts_section::TableRun;

/// Writes a section of an EIT: its fields, its events with their descriptors, and whether it is written back
/// unchanged.
pub fn write_eit(page: &mut PidPage, run: &TableRun) {
    match Eit::read(page.alloc(), run) {
        Ok(eit) => {
            write_head(page, &eit);
            write_events(page, eit.events.as_slice());
            write_written(page, run, eit.sections(page.alloc()));
        }
        Err(fault) => page.not_read("EIT", fault),
    }
}

/// Writes the fields before the events.
fn write_head(page: &mut PidPage, eit: &Eit) {
    page.head("EIT", eit.version, eit.current);
    page.field("service_id", &eit.service_id);
    page.field("table_id", &eit.table_id);
    page.field("number", &eit.number);
    page.field("last", &eit.last);
    page.field("stream_id", &eit.stream_id);
    page.field("original_id", &eit.original_id);
    page.field("segment_last", &eit.segment_last);
    page.field("last_table_id", &eit.last_table_id);
    page.end();
}

/// Writes events, each with its descriptors.
fn write_events(page: &mut PidPage, events: &[Event]) {
    for event in events {
        write_event(page, event);
        write_descriptors(page, &event.descriptors);
    }
}

/// Writes an event without its descriptors: the day and second of its start if it is defined, and its duration in
/// seconds.
fn write_event(page: &mut PidPage, event: &Event) {
    page.begin("event");
    page.field("id", &event.event_id);
    write_start(page, event.start);
    page.field("duration", &event.duration);
    page.field("running", &event.running);
    page.field("free_ca", &event.free_ca);
    page.end();
}

fn write_start(page: &mut PidPage, start: Option<Start>) {
    if let Some(start) = start {
        page.field("day", &start.day);
        page.field("second", &start.second);
    }
}
