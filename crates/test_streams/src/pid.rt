//! The sections and tables of one PID.

use crate::page::PidPage;
use crate::table::write_table;
use std::alloc::{AllocError, Global};
use std::io;
use ts_demux::{Assembly, Demux};
use ts_packet::{NULL_PID, PACKET_SIZE, Packet};
use ts_section::{Section, TableRun};

/// Prints the sections of one PID, the content of each that is a table by itself, and the tables of several sections.
pub fn print_pid(rt: &(impl Print + AllocGlobal), pid: u16, stream: &[u8]) -> io::Result<()> {
    let mut page = PidPage::new(rt.alloc(), pid);
    write_pid(rt.alloc(), &mut page, pid, stream)?;
    page.print(rt)
}

/// Writes what `print_pid` prints.
fn write_pid(alloc: Global, page: &mut PidPage, pid: u16, stream: &[u8]) -> Result<(), AllocError> {
    if pid > NULL_PID {
        return Ok(());
    }
    let mut assembly = Assembly::new(alloc)?;
    let mut demux = Demux::new(alloc, pid)?;
    write_packets(page, &mut demux, &mut assembly, stream)
}

fn write_packets(
    page: &mut PidPage,
    demux: &mut Demux,
    assembly: &mut Assembly,
    stream: &[u8],
) -> Result<(), AllocError> {
    let mut left = stream;
    while let Some((row, rest)) = left.split_first_chunk::<PACKET_SIZE>() {
        if let Ok(packet) = Packet::of(row) {
            write_packet(page, demux, assembly, &packet)?;
        }
        left = rest;
    }
    Ok(())
}

/// Writes the sections that a packet completes, and the tables that these complete.
fn write_packet(
    page: &mut PidPage,
    demux: &mut Demux,
    assembly: &mut Assembly,
    packet: &Packet,
) -> Result<(), AllocError> {
    for _ in 0..demux.feed(packet)? {
        if let Some(section) = demux.next_section() {
            write_section(page, &section);
            write_alone(page, table_alone(page.alloc(), &section)?);
            write_joined(page, assembly.add(0, section)?);
        }
    }
    Ok(())
}

/// Writes the table_id of a section, its section_length, and the CRC of the long form.
fn write_section(page: &mut PidPage, section: &Section) {
    let bytes = section.bytes();
    page.begin("id");
    page.value(&section.table_id());
    page.field("length", &bytes.len().saturating_sub(3));
    if section.is_long() {
        write_crc(page, bytes);
    }
    page.end();
}

/// Writes the last four bytes of a section.
fn write_crc(page: &mut PidPage, bytes: &[u8]) {
    if let Some((_, crc)) = bytes.split_last_chunk::<4>() {
        page.text(" crc");
        page.bytes(crc);
    }
}

/// The table that a section is by itself; `None` where it is one of several.
fn table_alone(alloc: Global, section: &Section) -> Result<Option<TableRun>, AllocError> {
    let copy = section.copy()?;
    let sections = vec![in alloc; copy]?;
    Ok(TableRun::of(sections).ok())
}

/// Writes the content of a table of one section.
fn write_alone(page: &mut PidPage, table: Option<TableRun>) {
    if let Some(run) = table {
        write_table(page, &run);
    }
}

/// Writes how many sections a table has, and its content if there are several.
fn write_joined(page: &mut PidPage, table: Option<TableRun>) {
    if let Some(run) = table {
        let count = run.sections().len();
        page.begin("table of");
        page.value(&count);
        page.text(" sections\n");
        if count > 1 {
            write_table(page, &run);
        }
    }
}
