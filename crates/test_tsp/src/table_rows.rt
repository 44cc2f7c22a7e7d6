//! Rows on files of tables, which are read before anything is opened.
use crate::inputs::Input;
use crate::row::Row;
use test_tools::{DeskPlan, ORDINARY};

/// What a file of tables puts into the stream.
pub(crate) fn rows() -> &'static [Row] {
    &TABLE_ROWS
}

static TABLE_ROWS: [Row; 2] = [
    Row {
        name: "a table put in every three packets",
        words: "-I null 7 -P inject t.json --pid 0 --inter-packet 3 -O file out",
        input: Input::Pids(&[]),
        plan: ORDINARY,
    },
    Row {
        name: "a file of no section puts nothing in",
        words: "-I null 4 -P inject e.bin --pid 32 --inter-packet 1 -O file out",
        input: Input::Pids(&[]),
        plan: ORDINARY,
    },
];

/// Files of tables that end the call: there is no run.
pub(crate) fn of_faults() -> &'static [Row] {
    &TABLE_FAULT_ROWS
}

static TABLE_FAULT_ROWS: [Row; 5] = [
    Row {
        name: "a file of tables that is no JSON",
        words: "-I null 2 -P inject bad.json --pid 0 --replace -O file out",
        input: Input::Pids(&[]),
        plan: ORDINARY,
    },
    Row {
        name: "the file of the second plugin",
        words: "-I null 2 -P inject t.json --pid 0 --replace -P inject bad.json --pid 1 --replace -O drop",
        input: Input::Pids(&[]),
        plan: ORDINARY,
    },
    Row {
        name: "a file of tables that is not there",
        words: "-I file in -P inject t.json --pid 0 --replace -O file out",
        input: Input::Pids(&[256]),
        plan: DeskPlan {
            opens: &[1],
            ..ORDINARY
        },
    },
    Row {
        name: "input not there after a file of tables",
        words: "-I file in -P inject t.json --pid 0 --replace -O file out",
        input: Input::Pids(&[256]),
        plan: DeskPlan {
            opens: &[2],
            ..ORDINARY
        },
    },
    Row {
        name: "output not to be opened after a file of tables",
        words: "-I file in -P inject t.json --pid 0 --replace -O file out",
        input: Input::Pids(&[256]),
        plan: DeskPlan {
            opens: &[3],
            ..ORDINARY
        },
    },
];
