//! Rows on the clock of a stream: `until` and `slice` that go by time.
use crate::inputs::{Clocked, Input};
use crate::row::Row;
use test_tools::ORDINARY;

/// A packet with a PCR: its PID, the flags of its adaptation field, and the PCR.
macro_rules! clocked {
    ($pid:expr, $flags:expr, $clock:expr) => {
        Clocked {
            pid: $pid,
            flags: $flags,
            clock: $clock,
        }
    };
}

/// Cuts by time, over the generated stream, whose 9,000 packets take a second, and over clocks that stop or jump.
pub(crate) fn rows() -> &'static [Row] {
    &TIME_ROWS
}

static TIME_ROWS: [Row; 13] = [
    Row {
        name: "a second of the clock",
        words: "-I testgen 1 10000 -P until --seconds 1 -P count --total -O drop",
        input: Input::Pids(&[]),
        plan: ORDINARY,
    },
    Row {
        name: "a second without the packet that reaches it",
        words: "-I file in -P until --seconds 1 --exclude-last -O drop",
        input: Input::Clocks(&[
            clocked!(256, 0x10, 0),
            clocked!(256, 0x10, 6750000),
            clocked!(256, 0x10, 13500000),
            clocked!(256, 0x10, 20250000),
            clocked!(256, 0x10, 27000000),
            clocked!(256, 0x10, 33750000),
        ]),
        plan: ORDINARY,
    },
    Row {
        name: "a second and a half, which is not reached",
        words: "-I file in -P until --seconds 2 -O drop",
        input: Input::Clocks(&[
            clocked!(256, 0x10, 0),
            clocked!(256, 0x10, 6750000),
            clocked!(256, 0x10, 13500000),
            clocked!(256, 0x10, 20250000),
            clocked!(256, 0x10, 27000000),
            clocked!(256, 0x10, 33750000),
        ]),
        plan: ORDINARY,
    },
    Row {
        name: "no second, which the first packet has",
        words: "-I null 5 -P skip 2 -P until --seconds 0 -O drop",
        input: Input::Pids(&[]),
        plan: ORDINARY,
    },
    Row {
        name: "a common end after a second",
        words: "-I file in -P until --seconds 1 --joint-termination -O drop",
        input: Input::Clocks(&[
            clocked!(256, 0x10, 0),
            clocked!(256, 0x10, 6750000),
            clocked!(256, 0x10, 13500000),
            clocked!(256, 0x10, 20250000),
            clocked!(256, 0x10, 27000000),
            clocked!(256, 0x10, 33750000),
        ]),
        plan: ORDINARY,
    },
    Row {
        name: "a second over a clock that begins anew",
        words: "-I file in -P until --seconds 1 -O drop",
        input: Input::Clocks(&[
            clocked!(256, 0x10, 1000),
            clocked!(256, 0x10, 13501000),
            clocked!(256, 0x10, 400),
            clocked!(256, 0x10, 13500400),
        ]),
        plan: ORDINARY,
    },
    Row {
        name: "a second without a PCR of a transport error, and with a discontinuity",
        words: "-I file in -P until --seconds 1 -O drop",
        input: Input::Clocks(&[
            clocked!(256, 0x10, 0),
            clocked!(0x8100, 0x10, 27000000),
            clocked!(256, 0x90, 13500000),
            clocked!(256, 0x10, 27000000),
            clocked!(256, 0x10, 40500000),
        ]),
        plan: ORDINARY,
    },
    Row {
        name: "the clock of another PID, where the first one stops",
        words: "-I file in -P until --seconds 4 -O drop",
        input: Input::Clocks(&[
            clocked!(256, 0x10, 0),
            clocked!(256, 0x10, 27000000),
            clocked!(257, 0x10, 0),
            clocked!(257, 0x10, 0),
            clocked!(257, 0x10, 0),
            clocked!(257, 0x10, 100),
        ]),
        plan: ORDINARY,
    },
    Row {
        name: "the clock of a PID that stops",
        words: "-I file in -P until --seconds 4 --pcr-pid 256 -O drop",
        input: Input::Clocks(&[
            clocked!(256, 0x10, 0),
            clocked!(256, 0x10, 27000000),
            clocked!(257, 0x10, 0),
            clocked!(257, 0x10, 0),
            clocked!(257, 0x10, 0),
            clocked!(257, 0x10, 100),
        ]),
        plan: ORDINARY,
    },
    Row {
        name: "half a second from the first half on",
        words: "-I file in -P slice --milliseconds --drop 0 --pass 500 --stop 1000 -P count --total -O drop",
        input: Input::Clocks(&[
            clocked!(256, 0x10, 0),
            clocked!(256, 0x10, 6750000),
            clocked!(256, 0x10, 13500000),
            clocked!(256, 0x10, 20250000),
            clocked!(256, 0x10, 27000000),
            clocked!(256, 0x10, 33750000),
        ]),
        plan: ORDINARY,
    },
    Row {
        name: "null packets from a second on",
        words: "-I file in -P slice --null 1000 --milliseconds -P count --pid 8191 -O drop",
        input: Input::Clocks(&[
            clocked!(256, 0x10, 0),
            clocked!(256, 0x10, 6750000),
            clocked!(256, 0x10, 13500000),
            clocked!(256, 0x10, 20250000),
            clocked!(256, 0x10, 27000000),
            clocked!(256, 0x10, 33750000),
        ]),
        plan: ORDINARY,
    },
    Row {
        name: "the clock of another PID decides, where the first one stops",
        words: "-I file in -P slice --milliseconds --drop 4000 -P count --total -O drop",
        input: Input::Clocks(&[
            clocked!(256, 0x10, 0),
            clocked!(256, 0x10, 27000000),
            clocked!(257, 0x10, 0),
            clocked!(257, 0x10, 0),
            clocked!(257, 0x10, 0),
            clocked!(257, 0x10, 100),
        ]),
        plan: ORDINARY,
    },
    Row {
        name: "the clock of a PID that is named decides",
        words: "-I file in -P slice --milliseconds --drop 4000 --pcr-pid 256 -P count --total -O drop",
        input: Input::Clocks(&[
            clocked!(256, 0x10, 0),
            clocked!(256, 0x10, 27000000),
            clocked!(257, 0x10, 0),
            clocked!(257, 0x10, 0),
            clocked!(257, 0x10, 0),
            clocked!(257, 0x10, 100),
        ]),
        plan: ORDINARY,
    },
];

/// Words of `until` and `slice` with times that are no command line.
pub(crate) fn of_words() -> &'static [Row] {
    &TIME_WORD_ROWS
}

static TIME_WORD_ROWS: [Row; 5] = [
    Row {
        name: "a PID of the clock without seconds",
        words: "-I null 2 -P until --packets 5 --pcr-pid 256 -O drop",
        input: Input::Pids(&[]),
        plan: ORDINARY,
    },
    Row {
        name: "a PID of the clock without milliseconds",
        words: "-I null 2 -P slice --drop 1 --pcr-pid 256 -O drop",
        input: Input::Pids(&[]),
        plan: ORDINARY,
    },
    Row {
        name: "seconds and packets",
        words: "-I null 2 -P until --seconds 1 --packets 1 -O drop",
        input: Input::Pids(&[]),
        plan: ORDINARY,
    },
    Row {
        name: "seconds above the greatest",
        words: "-I null 2 -P until --seconds 4294967297 -O drop",
        input: Input::Pids(&[]),
        plan: ORDINARY,
    },
    Row {
        name: "milliseconds of nothing",
        words: "-I null 2 -P slice --milliseconds -O drop",
        input: Input::Pids(&[]),
        plan: ORDINARY,
    },
];
