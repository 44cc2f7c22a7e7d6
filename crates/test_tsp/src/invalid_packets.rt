//! Rows on packets with an invalid adaptation field.
use crate::inputs::{Input, input_bytes};
use crate::row::Row;
use crate::trial::{Case, Trial, by_serial_call, words_of};
use std::alloc::{AllocError, Global};
use std::io;
use test_tools::ORDINARY;
use ts_outside::OpenGate;

/// Three packets with unit start on PID 0: one with the reserved control 0, one with an adaptation field alone whose length
/// is 182 where it has to be 183, and one with both whose length of 183 leaves no payload. The last one's counter is
/// wrong.
const LAWLESS: [[u8; 5]; 3] = [
    [0x47, 0x40, 0, 0x00, 183],
    [0x47, 0x40, 0, 0x20, 182],
    [0x47, 0x40, 0, 0x35, 183],
];

const WORDS: &str = "-I file in -P continuity -P tables -P analyze -P pattern AA -O file out";

/// The plugins that read fields of a packet.
pub(crate) fn rows() -> &'static [Row] {
    &LAWLESS_ROWS
}

static LAWLESS_ROWS: [Row; 1] = [Row {
    name: "packets with a lawless adaptation field",
    words: WORDS,
    input: Input::Headed(&LAWLESS),
    plan: ORDINARY,
}];

/// Prints whether those packets are written as they came.
pub(crate) fn print_unchanged(rt: &(impl Print + AllocGlobal)) -> io::Result<()> {
    for row in &LAWLESS_ROWS {
        let is_unchanged = is_unchanged(rt.alloc(), row)?;
        println!(rt; "{}, written as they came: {is_unchanged}", row.name)?;
    }
    Ok(())
}

/// Whether the row's output is its input.
fn is_unchanged(alloc: Global, row: &Row) -> Result<bool, AllocError> {
    let bytes = input_bytes(alloc, row.input)?;
    let trial = serial_trial(alloc, row)?;
    Ok(trial.written() == bytes.as_slice())
}

fn serial_trial(alloc: Global, row: &Row) -> Result<Trial, AllocError> {
    let words = words_of(alloc, row.words)?;
    let case = Case {
        words: words.as_slice(),
        input: row.input,
        plan: row.plan,
    };
    by_serial_call(alloc, case, &OpenGate)
}
