//! Rows on summaries at each so-many-th packet (`--every`): what is said there, of which packets, and words that are refused.
use crate::inputs::{Clocked, Input};
use crate::row::Row;
use test_tools::ORDINARY;

/// Five packets on one PID.
const FIVE: Input = Input::Pids(&[256; 5]);

/// A packet with this PCR.
macro_rules! clocked {
    ($clock:expr) => {
        Clocked {
            pid: 256,
            flags: 0x10,
            clock: $clock,
        }
    };
}

/// Two packets with PCRs that are 284 milliseconds apart.
const CLOCKS: Input = Input::Clocks(&[clocked!(0), clocked!(7_680_000)]);

/// A row without a fault outside.
macro_rules! row {
    ($name:expr, $words:expr, $input:expr) => {
        Row {
            name: $name,
            words: $words,
            input: $input,
            plan: ORDINARY,
        }
    };
}

/// Summaries so far.
pub(crate) fn rows() -> &'static [Row] {
    &EVERY_ROWS
}

static EVERY_ROWS: [Row; 19] = [
    row!(
        "summaries after two packets, after four, and of all",
        "-I file in -P count --total --every 2 -O drop",
        FIVE
    ),
    row!(
        "the same while the run goes",
        "--live -I file in -P count --total --every 2 -O drop",
        FIVE
    ),
    row!(
        "a run that ends with a summary has it twice",
        "-I file in -P count --total --every 2 -O drop",
        Input::Pids(&[256; 4])
    ),
    row!(
        "the same summary twice in batches of one packet",
        "--live --buffer-packets 1 -I file in -P count --total --every 2 -O drop",
        Input::Pids(&[256; 4])
    ),
    row!(
        "a summary behind each packet and its lines",
        "-I file in -P count --all --pid 256 --every 1 -O drop",
        Input::Pids(&[256, 257, 256])
    ),
    row!(
        "a summary after more packets than come",
        "-I file in -P count --total --every 1099511627776 -O drop",
        FIVE
    ),
    row!(
        "summaries so far by position, and then by plugin",
        "--live -I file in -P continuity --every 2 -P count --all --pid 256 -O drop",
        Input::Counters(&[0, 1, 3, 4])
    ),
    row!(
        "the same summaries so far after the run",
        "-I file in -P continuity --every 2 -P count --all --pid 256 -O drop",
        Input::Counters(&[0, 1, 3, 4])
    ),
    row!(
        "packets that were dropped are not counted",
        "-I file in -P slice --drop 1 --pass 2 -P count --total --every 2 -O drop",
        FIVE
    ),
    row!(
        "packets with a label alone are counted",
        "-I file in -P filter --pid 256 --set-label 3 -P count --every 2 --only-label 3 -O drop",
        Input::Pids(&[256, 256, 257, 257, 256, 256])
    ),
    row!(
        "until ends the run before a summary so far",
        "--live -I file in -P count --total --every 3 -P until --packets 4 -O drop",
        Input::Pids(&[256; 7])
    ),
    row!(
        "a fault after the cut is in no summary so far",
        "--fail-on-faults -I file in -P continuity --every 2 -P until --packets 2 -O drop",
        Input::Counters(&[0, 1, 3])
    ),
    row!(
        "a fault, with summaries so far",
        "--fail-on-faults -I file in -P continuity --every 2 -O drop",
        Input::Counters(&[0, 1, 3])
    ),
    row!(
        "the services so far",
        "-I testgen 1 1000 -P analyze --every 2 -P until --packets 2 -O drop",
        Input::Pids(&[])
    ),
    row!(
        "info so far as JSON",
        "-I testgen 1 1000 -P info --json --every 1000 -O drop",
        Input::Pids(&[])
    ),
    row!(
        "info so far",
        "-I testgen 1 1000 -P info --every 1000 -O drop",
        Input::Pids(&[])
    ),
    row!(
        "PCRs so far",
        "-I testgen 1 1000 -P pcrverify --bitrate 13536000 --every 1000 -O drop",
        Input::Pids(&[])
    ),
    row!(
        "clocks so far",
        "-I testgen 1 1000 -P timestamps --every 106 -P until --packets 106 -O drop",
        Input::Pids(&[])
    ),
    row!(
        "bit rates so far",
        "-I file in -P rate --interval 250 --every 2 -O drop",
        CLOCKS
    ),
];

/// Words that are no command line.
pub(crate) fn of_words() -> &'static [Row] {
    &WORD_ROWS
}

static WORD_ROWS: [Row; 6] = [
    row!(
        "a summary after no packet",
        "-I null 2 -P count --every 0",
        Input::Pids(&[])
    ),
    row!(
        "a summary after more than 2^40 packets",
        "-I null 2 -P count --every 1099511627777",
        Input::Pids(&[])
    ),
    row!(
        "summaries among lines between commas",
        "-I null 2 -P timestamps --csv --every 5",
        Input::Pids(&[])
    ),
    row!(
        "a bad number comes before options in conflict",
        "-I null 2 -P timestamps --csv --every 0",
        Input::Pids(&[])
    ),
    row!(
        "summaries of a plugin that has none",
        "-I null 2 -P tables --every 5",
        Input::Pids(&[])
    ),
    row!(
        "summaries of a plugin that reports nothing",
        "-I null 2 -P filter --pid 1 --every 5",
        Input::Pids(&[])
    ),
];
