//! Rows on `info`. The generated stream has a PCR at every fiftieth packet from the one at 4 on.
use crate::carried::Carried;
use crate::inputs::Input;
use crate::row::Row;
use test_tools::ORDINARY;

/// What `info` reports of streams, with tables and without.
pub(crate) fn rows() -> &'static [Row] {
    &INFO_ROWS
}

static INFO_ROWS: [Row; 12] = [
    Row {
        name: "info of a stream without a PAT",
        words: "-I file in -P info -O drop",
        input: Input::Pids(&[256, 8191, 257, 8191]),
        plan: ORDINARY,
    },
    Row {
        name: "info of a PAT without a PMT",
        words: "-I file in -P info -O drop",
        input: Input::Around(&[300], &[Carried::Pat], &[301]),
        plan: ORDINARY,
    },
    Row {
        name: "info of a service without a name",
        words: "-I file in -P info -O drop",
        input: Input::Around(&[300], &[Carried::Pat, Carried::PmtOf300], &[301]),
        plan: ORDINARY,
    },
    Row {
        name: "info of a scrambled component",
        words: "-I file in -P info -O drop",
        input: Input::Scrambled(&[Carried::Pat, Carried::PmtOf300], &[300, 300, 300]),
        plan: ORDINARY,
    },
    Row {
        name: "info of a PAT that changes within the stream",
        words: "-I file in -P info -O drop",
        input: Input::Around(&[300], &[Carried::Pat, Carried::NextPat], &[301]),
        plan: ORDINARY,
    },
    Row {
        name: "info of the packets before the end alone",
        words: "-I file in -P info -P until --packets 2 -O drop",
        input: Input::Pids(&[256, 257, 258]),
        plan: ORDINARY,
    },
    Row {
        name: "info of two services with one PCR PID",
        words: "-I testgen 1 1000 -P info -O drop",
        input: Input::Pids(&[]),
        plan: ORDINARY,
    },
    Row {
        name: "the bit rate with all packets but PCRs dropped, which have positions all the same",
        words: "-I testgen 1 1000 -P filter --pcr -P info -O drop",
        input: Input::Pids(&[]),
        plan: ORDINARY,
    },
    Row {
        name: "one PCR alone gives no bit rate",
        words: "-I testgen 1 50 -P filter --pcr -P info -O drop",
        input: Input::Pids(&[]),
        plan: ORDINARY,
    },
    Row {
        name: "info of a stream without a PAT, as JSON",
        words: "-I file in -P info --json -O drop",
        input: Input::Pids(&[256, 8191, 257, 8191]),
        plan: ORDINARY,
    },
    Row {
        name: "info of a service without a name, as JSON",
        words: "-I file in -P info --json -O drop",
        input: Input::Around(&[300], &[Carried::Pat, Carried::PmtOf300], &[301]),
        plan: ORDINARY,
    },
    Row {
        name: "info of two services with one PCR PID, as JSON",
        words: "-I testgen 1 1000 -P info --json -O drop",
        input: Input::Pids(&[]),
        plan: ORDINARY,
    },
];

/// Words of `info` that are no command line.
pub(crate) fn of_words() -> &'static [Row] {
    &INFO_WORD_ROWS
}

static INFO_WORD_ROWS: [Row; 2] = [
    Row {
        name: "info takes no operand",
        words: "-I null 1 -P info 1 -O drop",
        input: Input::Pids(&[]),
        plan: ORDINARY,
    },
    Row {
        name: "info takes --json without a value",
        words: "-I null 1 -P info --json=1 -O drop",
        input: Input::Pids(&[]),
        plan: ORDINARY,
    },
];
