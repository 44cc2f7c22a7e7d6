//! Rows on plays: their order, and how the last one ends.
use crate::row::Row;
use test_tools::{DeskPlan, ORDINARY};

/// Plays one after another.
pub(crate) fn rows() -> &'static [Row] {
    &PLAY_ROWS
}

static PLAY_ROWS: [Row; 10] = [
    Row {
        name: "two files, twice",
        words: "--cycle 2 -I file A -I file B -O file C",
        plan: ORDINARY,
    },
    Row {
        name: "two files, the packets dropped",
        words: "--cycle 2 -I file A -O drop",
        plan: ORDINARY,
    },
    Row {
        name: "the standard output",
        words: "-I file B -I file A",
        plan: ORDINARY,
    },
    Row {
        name: "bytes left out",
        words: "-I file rest -I file B -O file C",
        plan: ORDINARY,
    },
    Row {
        name: "an empty file",
        words: "-I file none -O file C",
        plan: ORDINARY,
    },
    Row {
        name: "lost sync in the first input, and the next one cannot be opened",
        words: "-I file lost -I file B -O file C",
        plan: DeskPlan {
            opens: &[3],
            ..ORDINARY
        },
    },
    Row {
        name: "lost sync in the first input, and the next one is valid",
        words: "-I file lost -I file A -O file C",
        plan: ORDINARY,
    },
    Row {
        name: "lost sync in the second input, and another round after it",
        words: "--cycle 2 -I file A -I file lost -O file C",
        plan: ORDINARY,
    },
    Row {
        name: "the next input cannot be opened",
        words: "-I file A -I file B -O file C",
        plan: DeskPlan {
            opens: &[3],
            ..ORDINARY
        },
    },
    Row {
        name: "the first input cannot be opened",
        words: "-I file A -I file B -O file C",
        plan: DeskPlan {
            opens: &[2],
            ..ORDINARY
        },
    },
];
