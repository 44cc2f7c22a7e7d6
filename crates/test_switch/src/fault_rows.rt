//! Rows with failing calls of the desk.
use crate::row::Row;
use test_tools::{DeskPlan, ORDINARY};

/// Openings, reads and writes that fail.
pub(crate) fn rows() -> &'static [Row] {
    &FAULT_ROWS
}

static FAULT_ROWS: [Row; 6] = [
    Row {
        name: "the output cannot be opened",
        words: "-I file A -I file B -O file C",
        plan: DeskPlan {
            opens: &[1],
            ..ORDINARY
        },
    },
    Row {
        name: "the second read of each input fails",
        words: "-I file A -I file B -O file C",
        plan: DeskPlan {
            reads: &[2],
            ..ORDINARY
        },
    },
    Row {
        name: "the fourth read of the second input fails",
        words: "-I file A -I file many -I file B -O file C",
        plan: DeskPlan {
            reads: &[4],
            ..ORDINARY
        },
    },
    Row {
        name: "the first write fails",
        words: "-I file A -I file B -O file C",
        plan: DeskPlan {
            writes: &[1],
            ..ORDINARY
        },
    },
    Row {
        name: "room for one packet and 100 bytes",
        words: "-I file A -I file B -O file C",
        plan: DeskPlan {
            room: 288,
            ..ORDINARY
        },
    },
    Row {
        name: "room for one round and a byte",
        words: "--cycle 2 -I file A -I file B -O file C",
        plan: DeskPlan {
            room: 565,
            ..ORDINARY
        },
    },
];

/// What fails after the plays: a call that was complete fails by it, and one that ended otherwise keeps its own end.
pub(crate) fn after_plays() -> &'static [Row] {
    &END_ROWS
}

static END_ROWS: [Row; 6] = [
    Row {
        name: "the closing of the output fails",
        words: "-I file A -O file C",
        plan: DeskPlan {
            closes: &[1],
            ..ORDINARY
        },
    },
    Row {
        name: "lost sync, and the closing of the output fails",
        words: "-I file lost -O file C",
        plan: DeskPlan {
            closes: &[1],
            ..ORDINARY
        },
    },
    Row {
        name: "the report fails",
        words: "-I file A -O file C",
        plan: DeskPlan {
            reports: &[1],
            ..ORDINARY
        },
    },
    Row {
        name: "the second piece of the report fails",
        words: "--cycle 8 -I file B -O file C",
        plan: DeskPlan {
            reports: &[2],
            ..ORDINARY
        },
    },
    Row {
        name: "lost sync, and the report fails",
        words: "-I file lost -O file C",
        plan: DeskPlan {
            reports: &[1],
            ..ORDINARY
        },
    },
    Row {
        name: "a read, the closing and the report fail",
        words: "-I file A -O file C",
        plan: DeskPlan {
            reads: &[1],
            reports: &[1],
            closes: &[1],
            ..ORDINARY
        },
    },
];
