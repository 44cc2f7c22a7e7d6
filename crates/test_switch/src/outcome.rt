//! The result of a call, as text.
use crate::steps::Steps;
use crate::trial::Trial;
use test_tools::Page;

/// Writes the status, the report, the output, and the calls of the desk.
pub(crate) fn write_outcome(page: &mut Page, trial: &Trial) {
    let status = &trial.status;
    let exit = status.exit_code();
    page.add(format_args!("  {status:?}, exit {exit}\n"));
    write_report(page, trial.reported());
    write_output(page, trial.output());
    write_steps(page, &trial.desk.steps);
}

/// Writes the report, each line after a bar.
fn write_report(page: &mut Page, bytes: &[u8]) {
    if let Ok(text) = str::from_utf8(bytes) {
        for line in text.lines() {
            page.text("  | ");
            page.text(line);
            page.text("\n");
        }
    }
}

/// Writes the name of the output, and its number of bytes and packets, if there is one.
fn write_output(page: &mut Page, output: Option<(&str, &[u8])>) {
    if let Some((name, bytes)) = output {
        page.add(format_args!("  output {name:?}: {} bytes,", bytes.len()));
        write_packets(page, bytes);
    }
}

/// Writes the PIDs of complete packets, and ends the line.
fn write_packets(page: &mut Page, bytes: &[u8]) {
    let mut left = bytes;
    while let Some((row, rest)) = left.split_first_chunk::<188>() {
        page.text(" ");
        page.add(u16::from_be_bytes([row[1] & 0x1F, row[2]]));
        left = rest;
    }
    page.text("\n");
}

/// Writes the calls of the desk.
fn write_steps(page: &mut Page, steps: &Steps) {
    page.text("  the desk");
    page.text(steps.text());
    page.text("; inputs at once: ");
    page.add(steps.most());
    page.text("\n");
}
