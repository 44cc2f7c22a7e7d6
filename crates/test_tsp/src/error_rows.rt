//! Rows on the errors that `monitor` reports, by the indicators of ETSI TR 101 290, and on their numbers.
use crate::carried::Carried;
use crate::inputs::{Clocked, Input};
use crate::row::Row;
use test_tools::ORDINARY;

/// A packet with this PCR on PID 256.
macro_rules! clocked {
    ($clock:expr) => {
        clocked!(256, 0x10, $clock)
    };
    ($pid:expr, $flags:expr, $clock:expr) => {
        Clocked {
            pid: $pid,
            flags: $flags,
            clock: $clock,
        }
    };
}

/// A row without a fault outside.
macro_rules! row {
    ($name:expr, $words:expr, $input:expr) => {
        Row {
            name: $name,
            words: $words,
            input: $input,
            plan: ORDINARY,
        }
    };
}

/// PCRs half a second apart, and one a unit later.
const HALVES: Input = Input::Clocks(&[
    clocked!(0),
    clocked!(13_500_000),
    clocked!(13_500_001),
    clocked!(27_000_001),
    clocked!(256, 0x90, 27_000_002),
]);

/// Twelve PCRs a second apart, of which the last has the discontinuity flag.
const SECONDS: Input = Input::Clocks(&[
    clocked!(0),
    clocked!(27_000_000),
    clocked!(54_000_000),
    clocked!(81_000_000),
    clocked!(108_000_000),
    clocked!(135_000_000),
    clocked!(162_000_000),
    clocked!(189_000_000),
    clocked!(216_000_000),
    clocked!(243_000_000),
    clocked!(270_000_000),
    clocked!(256, 0x90, 0),
]);

/// Packets with counters, of which one comes three times, and one jumps.
const COUNTERS: Input = Input::Counters(&[1, 1, 1, 2, 4]);

/// Errors of each priority, their lines and their numbers.
pub(crate) fn rows() -> &'static [Row] {
    &MONITOR_ROWS
}

static MONITOR_ROWS: [Row; 17] = [
    row!(
        "nothing is wrong where nothing comes",
        "-I file in -P monitor -O drop",
        Input::Pids(&[])
    ),
    row!(
        "a packet that comes three times, and a counter that jumps",
        "-I file in -P monitor --priority 1 -O drop",
        COUNTERS
    ),
    row!(
        "the same while the run goes",
        "--live -I file in -P monitor --priority 1 -O drop",
        COUNTERS
    ),
    row!(
        "errors so far",
        "-I file in -P monitor --priority 1 --every 4 -O drop",
        COUNTERS
    ),
    row!(
        "errors before the cut",
        "-I file in -P monitor --priority 1 -P until --packets 4 -O drop",
        COUNTERS
    ),
    row!(
        "an error is a fault",
        "--fail-on-faults -I file in -P monitor --priority 1 -O drop",
        COUNTERS
    ),
    row!(
        "an error behind the cut is none",
        "--fail-on-faults -I file in -P monitor --priority 1 -P until --packets 2 -O drop",
        COUNTERS
    ),
    row!(
        "no PAT for half a second and a unit, and PCRs too far apart and too near",
        "-I file in -P monitor --bitrate 13536000 -O drop",
        HALVES
    ),
    row!(
        "without a bit rate",
        "-I file in -P monitor -O drop",
        HALVES
    ),
    row!(
        "by the PCRs of a PID without any",
        "-I file in -P monitor --pcr-pid 300 -O drop",
        HALVES
    ),
    row!(
        "a packet with the indicator of errors has no other error, and counters begin anew behind it",
        "-I file in -P monitor -O drop",
        Input::Headed(&[
            [0x47, 0x01, 0x00, 0x10, 0],
            [0x47, 0x81, 0x00, 0x15, 0],
            [0x47, 0x01, 0x00, 0x19, 0],
        ])
    ),
    row!(
        "no NIT for more than ten seconds, and no SDT for more than two",
        "-I file in -P monitor --priority 3 -O drop",
        SECONDS
    ),
    row!(
        "a scrambled packet on PID 0",
        "-I file in -P monitor --priority 3 -O drop",
        Input::Headed(&[[0x47, 0x40, 0x00, 0x90, 0]])
    ),
    row!(
        "tables that are right",
        "-I file in -P monitor --priority 3 -O drop",
        Input::Tables(&[Carried::Pat, Carried::Pmt, Carried::Sdt, Carried::Cat])
    ),
    row!(
        "scrambled packets on the PID of a service",
        "-I file in -P monitor -O drop",
        Input::Scrambled(&[Carried::Pat, Carried::Pmt], &[4096, 257, 4096])
    ),
    row!(
        "dropped packets have no errors",
        "-I file in -P skip 3 -P monitor --priority 1 -O drop",
        COUNTERS
    ),
    row!(
        "packets without the label are not seen",
        "-I file in -P filter --pid 257 --set-label 3 -P monitor --priority 1 --only-label 3 -O drop",
        COUNTERS
    ),
];

/// Words of `monitor` that are no command line.
pub(crate) fn of_words() -> &'static [Row] {
    &MONITOR_WORD_ROWS
}

static MONITOR_WORD_ROWS: [Row; 6] = [
    row!(
        "a priority above the greatest",
        "-I null 2 -P monitor --priority 4 -O drop",
        Input::Pids(&[])
    ),
    row!(
        "a priority of none",
        "-I null 2 -P monitor --priority 0 -O drop",
        Input::Pids(&[])
    ),
    row!(
        "a bit rate of none",
        "-I null 2 -P monitor --bitrate 0 -O drop",
        Input::Pids(&[])
    ),
    row!(
        "a gap of more than an hour",
        "-I null 2 -P monitor --pid-gap 3600001 -O drop",
        Input::Pids(&[])
    ),
    row!(
        "a PID of the clock above the greatest",
        "-I null 2 -P monitor --pcr-pid 8192 -O drop",
        Input::Pids(&[])
    ),
    row!(
        "an operand of monitor",
        "-I null 2 -P monitor 1 -O drop",
        Input::Pids(&[])
    ),
];
