//! Rows on reads that fail in the run.
use crate::inputs::Input;
use crate::row::Row;
use test_tools::{DeskPlan, ORDINARY};

/// Three packets on two PIDs.
const THREE: [u16; 3] = [256, 257, 256];

/// Five packets on one PID.
const FIVE: [u16; 5] = [256; 5];

/// Each read of a run in turn, and reads beyond the cut.
pub(crate) fn rows() -> &'static [Row] {
    &READ_ROWS
}

static READ_ROWS: [Row; 6] = [
    Row {
        name: "filter, and the first read fails",
        words: "-I file in -P filter --pid 256 -O file out",
        input: Input::Pids(&THREE),
        plan: DeskPlan {
            reads: &[1],
            ..ORDINARY
        },
    },
    Row {
        name: "filter, and the second read fails",
        words: "-I file in -P filter --pid 256 -O file out",
        input: Input::Pids(&THREE),
        plan: DeskPlan {
            reads: &[2],
            ..ORDINARY
        },
    },
    Row {
        name: "filter, and the third read fails",
        words: "-I file in -P filter --pid 256 -O file out",
        input: Input::Pids(&THREE),
        plan: DeskPlan {
            reads: &[3],
            ..ORDINARY
        },
    },
    Row {
        name: "filter, and the read fails that would have shown the end",
        words: "-I file in -P filter --pid 256 -O file out",
        input: Input::Pids(&THREE),
        plan: DeskPlan {
            reads: &[4],
            ..ORDINARY
        },
    },
    Row {
        name: "until before a failing read, joint termination ignored",
        words: "--ignore-joint-termination -I file in -P until --packets 1 --joint-termination -P until --packets 2 -O file out",
        input: Input::Pids(&FIVE),
        plan: DeskPlan {
            reads: &[4],
            ..ORDINARY
        },
    },
    Row {
        name: "a failing read where the joint termination before it is ignored",
        words: "--ignore-joint-termination -I file in -P until --packets 2 --joint-termination -O file out",
        input: Input::Pids(&FIVE),
        plan: DeskPlan {
            reads: &[4],
            ..ORDINARY
        },
    },
];
