//! Rows on the clocks that `timestamps` reports, and on the steps between them.
use crate::inputs::{Clocked, Input};
use crate::row::Row;
use test_tools::ORDINARY;

/// A packet with a PCR: its PID, the flags of its adaptation field, and the PCR.
macro_rules! clocked {
    ($pid:expr, $flags:expr, $clock:expr) => {
        Clocked {
            pid: $pid,
            flags: $flags,
            clock: $clock,
        }
    };
}

/// Steps at the limits and above them, one to a discontinuity, one back by a unit, packets with errors, other PIDs, and a cut.
pub(crate) fn rows() -> &'static [Row] {
    &STAMP_ROWS
}

static STAMP_ROWS: [Row; 8] = [
    Row {
        name: "steps of 40 ms, a unit, 100 ms, a unit more, and over a discontinuity",
        words: "-I file in -P timestamps --pts -O drop",
        input: Input::Clocks(&[
            clocked!(256, 0x10, 0),
            clocked!(256, 0x10, 1080000),
            clocked!(256, 0x10, 1080001),
            clocked!(256, 0x10, 3780001),
            clocked!(256, 0x10, 6480002),
            clocked!(256, 0x90, 0),
            clocked!(256, 0x10, 27),
        ]),
        plan: ORDINARY,
    },
    Row {
        name: "a step back by a unit goes round the clock",
        words: "-I file in -P timestamps -O drop",
        input: Input::Clocks(&[clocked!(256, 0x10, 5), clocked!(256, 0x10, 4)]),
        plan: ORDINARY,
    },
    Row {
        name: "a PCR of a packet with errors is none",
        words: "-I file in -P timestamps -O drop",
        input: Input::Clocks(&[clocked!(0x8100, 0x10, 7), clocked!(256, 0x10, 300)]),
        plan: ORDINARY,
    },
    Row {
        name: "clocks between commas, of one PID, without a summary",
        words: "-I file in -P timestamps --csv --pcr --pid 257 -O drop",
        input: Input::Clocks(&[
            clocked!(256, 0x10, 900),
            clocked!(257, 0x10, 300),
            clocked!(257, 0x10, 600),
        ]),
        plan: ORDINARY,
    },
    Row {
        name: "clocks before the cut",
        words: "-I testgen 1 1000 -P timestamps -P until --packets 106 -O drop",
        input: Input::Pids(&[]),
        plan: ORDINARY,
    },
    Row {
        name: "clocks go with the packets that are moved",
        words: "--add-input-stuffing 9/1 -I file in -P restuff --from 30000 --to 20000 -P timestamps --csv --pcr -O drop",
        input: Input::Clocks(&[
            clocked!(256, 0x10, 0),
            clocked!(256, 0x10, 13536000),
            clocked!(256, 0x10, 27072000),
        ]),
        plan: ORDINARY,
    },
    Row {
        name: "a clock is moved back, rounded to less",
        words: "--add-input-stuffing 2/1 -I file in -P restuff --from 3001 --to 2000 -P timestamps --csv --pcr -O drop",
        input: Input::Clocks(&[clocked!(256, 0x10, 0), clocked!(256, 0x10, 0)]),
        plan: ORDINARY,
    },
    Row {
        name: "a clock is moved over its period",
        words: "--add-stop-stuffing 12 -I file in -P restuff --from 4000 --to 1000 -P timestamps --csv --pcr -O drop",
        input: Input::Clocks(&[
            clocked!(256, 0x10, 2576980377599),
            clocked!(256, 0x10, 2576980377599),
        ]),
        plan: ORDINARY,
    },
];

/// Words of `timestamps` that are no command line.
pub(crate) fn of_words() -> &'static [Row] {
    &STAMP_WORD_ROWS
}

static STAMP_WORD_ROWS: [Row; 2] = [
    Row {
        name: "a PID of timestamps above the greatest",
        words: "-I null 2 -P timestamps --pid 8192 -O drop",
        input: Input::Pids(&[]),
        plan: ORDINARY,
    },
    Row {
        name: "an operand of timestamps",
        words: "-I null 2 -P timestamps 1 -O drop",
        input: Input::Pids(&[]),
        plan: ORDINARY,
    },
];
