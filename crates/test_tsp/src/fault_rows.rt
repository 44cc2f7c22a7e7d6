//! Rows on faults of the outside.
use crate::inputs::Input;
use crate::row::Row;
use test_tools::{DeskPlan, ORDINARY};

/// Three packets on two PIDs.
const THREE: [u16; 3] = [256, 257, 256];

/// Five packets on one PID.
const FIVE: [u16; 5] = [256; 5];

/// Openings that fail: there is no run.
pub(crate) fn at_openings() -> &'static [Row] {
    &OPENING_ROWS
}

static OPENING_ROWS: [Row; 2] = [
    Row {
        name: "input not there",
        words: "-I file in -O file out",
        input: Input::Pids(&THREE),
        plan: DeskPlan {
            opens: &[1],
            ..ORDINARY
        },
    },
    Row {
        name: "output not to be opened",
        words: "-I file in -O file out",
        input: Input::Pids(&THREE),
        plan: DeskPlan {
            opens: &[2],
            ..ORDINARY
        },
    },
];

/// Reads and writes that fail in the run.
pub(crate) fn in_runs() -> &'static [Row] {
    &RUN_ROWS
}

static RUN_ROWS: [Row; 6] = [
    Row {
        name: "a failing third read",
        words: "-I file in -O file out",
        input: Input::Pids(&FIVE),
        plan: DeskPlan {
            reads: &[3],
            ..ORDINARY
        },
    },
    Row {
        name: "until before a failing read",
        words: "-I file in -P until --packets 2 -O file out",
        input: Input::Pids(&FIVE),
        plan: DeskPlan {
            reads: &[3],
            ..ORDINARY
        },
    },
    Row {
        name: "no stop nulls after a failing read",
        words: "--add-stop-stuffing 3 -I file in -O file out",
        input: Input::Pids(&FIVE),
        plan: DeskPlan {
            reads: &[3],
            ..ORDINARY
        },
    },
    Row {
        name: "joint termination before a failing read",
        words: "-I file in -P until --packets 2 --joint-termination -O file out",
        input: Input::Pids(&FIVE),
        plan: DeskPlan {
            reads: &[3],
            ..ORDINARY
        },
    },
    Row {
        name: "a failing second write",
        words: "-I file in -O file out",
        input: Input::Pids(&[256]),
        plan: DeskPlan {
            writes: &[2],
            ..ORDINARY
        },
    },
    Row {
        name: "a failing write after a plugin",
        words: "-I file in -P count -O file out",
        input: Input::Pids(&FIVE),
        plan: DeskPlan {
            writes: &[1],
            ..ORDINARY
        },
    },
];

/// Faults after the run.
pub(crate) fn after_runs() -> &'static [Row] {
    &LATE_ROWS
}

static LATE_ROWS: [Row; 3] = [
    Row {
        name: "a failing closing",
        words: "-I file in -O file out",
        input: Input::Pids(&THREE),
        plan: DeskPlan {
            closes: &[1],
            ..ORDINARY
        },
    },
    Row {
        name: "a failing report",
        words: "-I file in -O file out",
        input: Input::Pids(&THREE),
        plan: DeskPlan {
            reports: &[1],
            ..ORDINARY
        },
    },
    Row {
        name: "a failing report after lost sync",
        words: "-I file in -O file out",
        input: Input::Lost(&[256, 256, 256], 376),
        plan: DeskPlan {
            reports: &[1],
            ..ORDINARY
        },
    },
];
