//! Rows on faults after the run: the closing of the output, and the report.
use crate::inputs::Input;
use crate::row::Row;
use test_tools::{DeskPlan, ORDINARY};

/// Three packets on two PIDs.
const THREE: [u16; 3] = [256, 257, 256];

/// They make a run fail that is done; one that ended otherwise keeps its own end.
pub(crate) fn rows() -> &'static [Row] {
    &END_ROWS
}

static END_ROWS: [Row; 5] = [
    Row {
        name: "filter, and the first report fails",
        words: "-I file in -P filter --pid 256 -O file out",
        input: Input::Pids(&THREE),
        plan: DeskPlan {
            reports: &[1],
            ..ORDINARY
        },
    },
    Row {
        name: "filter, and the second piece of the report fails",
        words: "-I file in -P filter --pid 256 -O file out",
        input: Input::Pids(&THREE),
        plan: DeskPlan {
            reports: &[2],
            write_piece: 20,
            ..ORDINARY
        },
    },
    Row {
        name: "filter, and the closing fails",
        words: "-I file in -P filter --pid 256 -O file out",
        input: Input::Pids(&THREE),
        plan: DeskPlan {
            closes: &[1],
            ..ORDINARY
        },
    },
    Row {
        name: "lost sync, and the closing fails",
        words: "-I file in -O file out",
        input: Input::Lost(&[256, 256, 256], 376),
        plan: DeskPlan {
            closes: &[1],
            ..ORDINARY
        },
    },
    Row {
        name: "a read, the closing and the report fail",
        words: "-I file in -P filter --pid 256 -O file out",
        input: Input::Pids(&THREE),
        plan: DeskPlan {
            reads: &[3],
            reports: &[1],
            closes: &[1],
            ..ORDINARY
        },
    },
];
