//! Rows on writes that fail in the run.
use crate::inputs::Input;
use crate::row::Row;
use test_tools::{DeskPlan, ORDINARY};

/// Three packets on two PIDs.
const THREE: [u16; 3] = [256, 257, 256];

/// Each write of a run in turn, and an output that is full.
pub(crate) fn rows() -> &'static [Row] {
    &WRITE_ROWS
}

static WRITE_ROWS: [Row; 7] = [
    Row {
        name: "the first write of half a packet fails",
        words: "-I file in -O file out",
        input: Input::Pids(&THREE),
        plan: DeskPlan {
            writes: &[1],
            write_piece: 94,
            ..ORDINARY
        },
    },
    Row {
        name: "the second write of half a packet fails",
        words: "-I file in -O file out",
        input: Input::Pids(&THREE),
        plan: DeskPlan {
            writes: &[2],
            write_piece: 94,
            ..ORDINARY
        },
    },
    Row {
        name: "the third write of half a packet fails",
        words: "-I file in -O file out",
        input: Input::Pids(&THREE),
        plan: DeskPlan {
            writes: &[3],
            write_piece: 94,
            ..ORDINARY
        },
    },
    Row {
        name: "the fourth write of half a packet fails",
        words: "-I file in -O file out",
        input: Input::Pids(&THREE),
        plan: DeskPlan {
            writes: &[4],
            write_piece: 94,
            ..ORDINARY
        },
    },
    Row {
        name: "the fifth write of half a packet fails",
        words: "-I file in -O file out",
        input: Input::Pids(&THREE),
        plan: DeskPlan {
            writes: &[5],
            write_piece: 94,
            ..ORDINARY
        },
    },
    Row {
        name: "the sixth write of half a packet fails",
        words: "-I file in -O file out",
        input: Input::Pids(&THREE),
        plan: DeskPlan {
            writes: &[6],
            write_piece: 94,
            ..ORDINARY
        },
    },
    Row {
        name: "filter, and an output of 200 bytes",
        words: "-I file in -P filter --pid 256 -O file out",
        input: Input::Pids(&THREE),
        plan: DeskPlan {
            room: 200,
            ..ORDINARY
        },
    },
];
