//! Rows on words that are no command line: nothing is opened.
use crate::inputs::Input;
use crate::row::Row;
use test_tools::ORDINARY;

/// A row or two for each broken rule but that of too many plugins.
pub(crate) fn rows() -> &'static [Row] {
    &WORD_ROWS
}

static WORD_ROWS: [Row; 10] = [
    Row {
        name: "missing option",
        words: "-I null 2 -P filter -O drop",
        input: Input::Pids(&[]),
        plan: ORDINARY,
    },
    Row {
        name: "second input",
        words: "-I null 2 -I null 3",
        input: Input::Pids(&[]),
        plan: ORDINARY,
    },
    Row {
        name: "no name",
        words: "-I null 2 -P",
        input: Input::Pids(&[]),
        plan: ORDINARY,
    },
    Row {
        name: "bad value",
        words: "-I null 2 -P filter --pid 8192",
        input: Input::Pids(&[]),
        plan: ORDINARY,
    },
    Row {
        name: "label above 31",
        words: "-I null 1 -P filter --pid 1 --set-label 32 -O drop",
        input: Input::Pids(&[]),
        plan: ORDINARY,
    },
    Row {
        name: "bad options",
        words: "-I null 2 -P filter --pid 1 --pid 2",
        input: Input::Pids(&[]),
        plan: ORDINARY,
    },
    Row {
        name: "unknown plugin",
        words: "-I file in -P nosuch -O drop",
        input: Input::Pids(&[]),
        plan: ORDINARY,
    },
    Row {
        name: "bad value of a general option",
        words: "--buffer-packets 0",
        input: Input::Pids(&[]),
        plan: ORDINARY,
    },
    Row {
        name: "another number of threads than one",
        words: "--threads 2",
        input: Input::Pids(&[]),
        plan: ORDINARY,
    },
    Row {
        name: "options in conflict",
        words: "-I file in -P until --packets 1 --exclude-last --joint-termination -O file out",
        input: Input::Pids(&[]),
        plan: ORDINARY,
    },
];
