//! Rows on plays whose packets are found again.
use crate::row::Row;
use test_tools::{DeskPlan, ORDINARY};

/// Plays of files with damage, with `--resync`.
pub(crate) fn rows() -> &'static [Row] {
    &FOUND_ROWS
}

static FOUND_ROWS: [Row; 11] = [
    Row {
        name: "found again: files without damage",
        words: "--resync --cycle 2 -I file A -I file B -O file C",
        plan: ORDINARY,
    },
    Row {
        name: "found again: bytes in front of the packets",
        words: "--resync -I file junk -O file C",
        plan: ORDINARY,
    },
    Row {
        name: "found again: a byte of a packet is lost",
        words: "--resync -I file torn -O file C",
        plan: ORDINARY,
    },
    Row {
        name: "found again: a wrong sync byte",
        words: "--resync -I file wrong -O file C",
        plan: ORDINARY,
    },
    Row {
        name: "found again: the file ends within a packet",
        words: "--resync -I file rest -O file C",
        plan: ORDINARY,
    },
    Row {
        name: "found again: the last packet has no sync byte",
        words: "--resync -I file lost -I file B -O file C",
        plan: ORDINARY,
    },
    Row {
        name: "found again: no packet at all, and an empty file",
        words: "--resync -I file noise -I file none -O file C",
        plan: ORDINARY,
    },
    Row {
        name: "found again: two plays, of which one has damage",
        words: "--resync --cycle 2 -I file A -I file torn -O drop",
        plan: ORDINARY,
    },
    Row {
        name: "found again: a read of the second input fails",
        words: "--resync -I file A -I file torn -O file C",
        plan: DeskPlan {
            reads: &[9],
            ..ORDINARY
        },
    },
    Row {
        name: "found again: the second input cannot be opened",
        words: "--resync -I file junk -I file A -O file C",
        plan: DeskPlan {
            opens: &[3],
            ..ORDINARY
        },
    },
    Row {
        name: "found again: a write fails",
        words: "--resync -I file junk -I file A -O file C",
        plan: DeskPlan {
            writes: &[1],
            ..ORDINARY
        },
    },
];
