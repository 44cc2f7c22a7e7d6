//! Rows on the bit rate that `rate` reports from interval to interval. A packet in 250 ms is 6,016 bits per second.
use crate::inputs::{Clocked, Input};
use crate::row::Row;
use test_tools::ORDINARY;

/// A packet with a PCR: its PID and the PCR.
macro_rules! clocked {
    ($pid:expr, $clock:expr) => {
        Clocked {
            pid: $pid,
            flags: 0x10,
            clock: $clock,
        }
    };
}

/// Intervals that pass one by one and several at once, a rate of half a bit, bounds, PIDs, dropped packets, no PCR, and a cut.
pub(crate) fn rows() -> &'static [Row] {
    &INTERVAL_ROWS
}

static INTERVAL_ROWS: [Row; 9] = [
    Row {
        name: "a packet in each quarter of a second, by half seconds",
        words: "-I file in -P rate --interval 500 -O drop",
        input: Input::Clocks(&[
            clocked!(256, 0),
            clocked!(256, 6750000),
            clocked!(256, 13500000),
            clocked!(256, 20250000),
            clocked!(256, 27000000),
            clocked!(256, 33750000),
        ]),
        plan: ORDINARY,
    },
    Row {
        name: "two or three intervals pass with each packet",
        words: "-I file in -P rate --interval 100 -O drop",
        input: Input::Clocks(&[
            clocked!(256, 0),
            clocked!(256, 6750000),
            clocked!(256, 13500000),
            clocked!(256, 20250000),
        ]),
        plan: ORDINARY,
    },
    Row {
        name: "5,287.5 bits per second are rounded up",
        words: "-I file in -P rate --interval 250 -O drop",
        input: Input::Clocks(&[clocked!(256, 0), clocked!(256, 7680000)]),
        plan: ORDINARY,
    },
    Row {
        name: "too high, too low, and right again",
        words: "-I file in -P rate --interval 100 --min 5000 --max 10000 -O drop",
        input: Input::Clocks(&[
            clocked!(256, 0),
            clocked!(256, 6750000),
            clocked!(256, 10125000),
            clocked!(256, 23625000),
            clocked!(256, 30375000),
            clocked!(256, 37125000),
        ]),
        plan: ORDINARY,
    },
    Row {
        name: "the packets of another PID than that of the clock",
        words: "-I file in -P rate --interval 250 --pid 257 -O drop",
        input: Input::Clocks(&[
            clocked!(256, 0),
            clocked!(257, 5),
            clocked!(257, 9),
            clocked!(256, 6750000),
        ]),
        plan: ORDINARY,
    },
    Row {
        name: "dropped packets are not counted",
        words: "-I file in -P filter --pid 256 -P rate --interval 250 -O drop",
        input: Input::Clocks(&[
            clocked!(256, 0),
            clocked!(257, 5),
            clocked!(257, 9),
            clocked!(256, 6750000),
        ]),
        plan: ORDINARY,
    },
    Row {
        name: "the clock of a PID that is named",
        words: "-I file in -P rate --interval 100 --pcr-pid 257 -O drop",
        input: Input::Clocks(&[
            clocked!(256, 3),
            clocked!(257, 0),
            clocked!(256, 7),
            clocked!(257, 2700000),
        ]),
        plan: ORDINARY,
    },
    Row {
        name: "no rate without PCRs",
        words: "-I null 3 -P rate -O drop",
        input: Input::Pids(&[]),
        plan: ORDINARY,
    },
    Row {
        name: "measurements before the cut",
        words: "-I testgen 1 20000 -P rate -P until --packets 18004 -O drop",
        input: Input::Pids(&[]),
        plan: ORDINARY,
    },
];

/// Words of `rate` that are no command line.
pub(crate) fn of_words() -> &'static [Row] {
    &INTERVAL_WORD_ROWS
}

static INTERVAL_WORD_ROWS: [Row; 2] = [
    Row {
        name: "an interval of rate below the least",
        words: "-I null 2 -P rate --interval 99 -O drop",
        input: Input::Pids(&[]),
        plan: ORDINARY,
    },
    Row {
        name: "a least rate above the greatest",
        words: "-I null 2 -P rate --min 6 --max 5 -O drop",
        input: Input::Pids(&[]),
        plan: ORDINARY,
    },
];
