//! Whether a table that was read is written back unchanged.

use crate::page::PidPage;
use ts_section::{Section, TableRun};
use ts_table_rows::TableRefusal;

/// Writes whether the written sections of a table are those that it was read from, or which bytes differ.
pub fn write_written(
    page: &mut PidPage,
    run: &TableRun,
    written: Result<Vec<Section>, TableRefusal>,
) {
    match written {
        Ok(sections) => write_compared(page, run.sections(), sections.as_slice()),
        Err(refusal) => page.not_written(refusal),
    }
}

fn write_compared(page: &mut PidPage, read: &[Section], written: &[Section]) {
    if read.len() != written.len() {
        page.begin("written as");
        page.value(&written.len());
        page.text(" sections\n");
        return;
    }
    let mut same = true;
    for (place, section) in read.iter().enumerate() {
        if let Some(again) = written.get(place) {
            same = write_others(page, place, section, again) && same;
        }
    }
    if same {
        page.line("written as it was");
    }
}

/// Writes how a section differs from the one that is written, and returns whether it does not.
fn write_others(page: &mut PidPage, place: usize, read: &Section, written: &Section) -> bool {
    let read = read.bytes();
    let written = written.bytes();
    if read.len() != written.len() {
        page.begin("section");
        page.value(&place);
        page.field("written with", &written.len());
        page.text(" bytes\n");
        return false;
    }
    write_other_bytes(page, place, read, written)
}

/// Writes the bytes of a section before its CRC that differ when it is written back, and returns whether there are
/// none.
fn write_other_bytes(page: &mut PidPage, place: usize, read: &[u8], written: &[u8]) -> bool {
    let end = read.len().saturating_sub(4);
    let mut same = true;
    for at in 0..end {
        if let Some(was) = read.get(at)
            && let Some(now) = written.get(at)
            && was != now
        {
            page.other_byte(place, at, *was, *now);
            same = false;
        }
    }
    same
}
