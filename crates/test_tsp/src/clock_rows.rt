//! Rows on PCRs that are held to a constant bit rate. The generated stream has a PCR at every fiftieth packet from the one at 4
//! on, 3000 units a packet, which is 13,536,000 bits per second.
use crate::inputs::Input;
use crate::row::Row;
use test_tools::ORDINARY;

/// The generated stream, at its bit rate and at a lower one, with the least allowed jitter that gives no fault and with one less.
pub(crate) fn rows() -> &'static [Row] {
    &CLOCK_ROWS
}

static CLOCK_ROWS: [Row; 6] = [
    Row {
        name: "PCRs at the bit rate of the stream",
        words: "-I testgen 1 1000 -P pcrverify --bitrate 13536000 -O drop",
        input: Input::Pids(&[]),
        plan: ORDINARY,
    },
    Row {
        name: "PCRs at a lesser bit rate",
        words: "-I testgen 1 1000 -P pcrverify --bitrate 13000000 --jitter-max 6183 -O drop",
        input: Input::Pids(&[]),
        plan: ORDINARY,
    },
    Row {
        name: "PCRs at a lesser bit rate, with one unit more",
        words: "-I testgen 1 1000 -P pcrverify --bitrate 13000000 --jitter-max 6184 -O drop",
        input: Input::Pids(&[]),
        plan: ORDINARY,
    },
    Row {
        name: "PCRs with all other packets dropped, which have positions all the same",
        words: "-I testgen 1 1000 -P filter --pcr -P pcrverify --bitrate 13536000 -O drop",
        input: Input::Pids(&[]),
        plan: ORDINARY,
    },
    Row {
        name: "PCRs on other PIDs",
        words: "-I testgen 1 1000 -P pcrverify --bitrate 13536000 --pid 0-255,257 -O drop",
        input: Input::Pids(&[]),
        plan: ORDINARY,
    },
    Row {
        name: "PCRs before the cut",
        words: "-I testgen 1 1000 -P pcrverify --bitrate 13000000 --jitter-max 0 -P until --packets 105 -O drop",
        input: Input::Pids(&[]),
        plan: ORDINARY,
    },
];

/// Words of `pcrverify` that are no command line, and the greatest numbers that are accepted.
pub(crate) fn of_words() -> &'static [Row] {
    &CLOCK_WORD_ROWS
}

static CLOCK_WORD_ROWS: [Row; 6] = [
    Row {
        name: "no bit rate",
        words: "-I null 2 -P pcrverify --jitter-max 5 -O drop",
        input: Input::Pids(&[]),
        plan: ORDINARY,
    },
    Row {
        name: "a bit rate of 0",
        words: "-I null 2 -P pcrverify --bitrate 0 -O drop",
        input: Input::Pids(&[]),
        plan: ORDINARY,
    },
    Row {
        name: "a bit rate above the greatest",
        words: "-I null 2 -P pcrverify --bitrate 10000000001 -O drop",
        input: Input::Pids(&[]),
        plan: ORDINARY,
    },
    Row {
        name: "a jitter of the whole period",
        words: "-I null 2 -P pcrverify --bitrate 1 --jitter-max 2576980377600 -O drop",
        input: Input::Pids(&[]),
        plan: ORDINARY,
    },
    Row {
        name: "an operand",
        words: "-I null 2 -P pcrverify 1 -O drop",
        input: Input::Pids(&[]),
        plan: ORDINARY,
    },
    Row {
        name: "the greatest numbers",
        words: "-I null 2 -P pcrverify --bitrate 10000000000 --jitter-max 2576980377599 --pid 8191 -O drop",
        input: Input::Pids(&[]),
        plan: ORDINARY,
    },
];
