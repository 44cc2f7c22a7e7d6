//! The result of a call, as text.
use crate::trial::Trial;
use test_tools::Page;
use ts_outside::MemoryDesk;

/// The PID of null packets.
const NULL_PID: u16 = 8191;

/// Longer outputs are written without their packets.
const SHORT: usize = 2000;

/// Writes the status, the report and the outputs.
pub(crate) fn write_outcome(page: &mut Page, trial: &Trial) {
    let status = &trial.status;
    let exit = status.exit_code();
    let asked = trial.desk.asked_count();
    page.add(format_args!("  {status:?}, exit {exit}, names asked for: {asked}\n"));
    write_report(page, trial.desk.reported());
    write_outputs(page, &*trial.desk);
}

/// Writes each output.
fn write_outputs(page: &mut Page, desk: &MemoryDesk) {
    for i in 0..desk.output_count() {
        if let Some((name, bytes)) = desk.output(i) {
            write_output(page, name, bytes);
        }
    }
}

/// Writes the report, each line after a bar.
fn write_report(page: &mut Page, bytes: &[u8]) {
    if let Ok(text) = str::from_utf8(bytes) {
        for line in text.lines() {
            page.text("  | ");
            page.text(line);
            page.text("\n");
        }
    }
}

/// Writes how many bytes were written under a name, the packets, and the last four bytes; and sections.
fn write_output(page: &mut Page, name: &str, bytes: &[u8]) {
    page.add(format_args!("  output {name:?}: {} bytes", bytes.len()));
    let is_short = bytes.len() <= SHORT;
    if is_short && 188 <= bytes.len() {
        write_packets(page, bytes);
    }
    write_end(page, bytes);
    if is_short {
        write_sections(page, bytes);
    }
}

/// Writes the last four bytes, and ends the line.
fn write_end(page: &mut Page, bytes: &[u8]) {
    if let Some((_, last)) = bytes.split_last_chunk::<4>() {
        page.text(", ends ");
        for byte in last {
            page.byte(*byte);
        }
    }
    page.text("\n");
}

/// Writes whole packets after a comma.
fn write_packets(page: &mut Page, bytes: &[u8]) {
    page.text(",");
    let mut left = bytes;
    while let Some((row, rest)) = left.split_first_chunk::<188>() {
        write_packet(page, row);
        left = rest;
    }
}

/// Writes a packet by its PID and its counter, and a null packet as `N`.
fn write_packet(page: &mut Page, row: &[u8; 188]) {
    let pid = u16::from_be_bytes([row[1] & 0x1F, row[2]]);
    if pid == NULL_PID {
        page.text(" N");
    } else {
        page.add(format_args!(" {pid}/{}", row[3] & 0x0F));
    }
}

/// Writes the section that begins right after the pointer field, of each packet that has one.
fn write_sections(page: &mut Page, bytes: &[u8]) {
    let mut left = bytes;
    while let Some((row, rest)) = left.split_first_chunk::<188>() {
        if row[1] & 0x40 != 0 && row[4] == 0 {
            write_section(page, &row[5..]);
        }
        left = rest;
    }
}

/// Writes the bytes of the first section; where the packet does not have the whole of it, its header alone.
fn write_section(page: &mut Page, bytes: &[u8]) {
    if let [_, high, low, ..] = bytes {
        let length = u16::from_be_bytes([*high & 0x0F, *low]);
        match bytes.get(..usize::from(length) + 3) {
            Some(section) => write_bytes(page, "  section", section),
            None => write_bytes(page, "  section begins", bytes.get(..8).unwrap_or(bytes)),
        }
    }
}

/// Writes a line with a title and bytes.
fn write_bytes(page: &mut Page, title: &str, bytes: &[u8]) {
    page.text(title);
    for byte in bytes {
        page.text(" ");
        page.byte(*byte);
    }
    page.text("\n");
}
