//! Rows on files that keep bytes before or after each packet.
use crate::inputs::{Input, Units};
use crate::row::Row;
use test_tools::{DeskPlan, ORDINARY};

/// Packets before sixteen bytes each, of which the last are missing.
const TRAILS: Units = Units {
    pids: &[256, 257],
    before: 0,
    behind: 16,
    len: 392,
};

/// Three packets after four bytes each, cut off within the third.
const LEADS: Units = Units {
    pids: &[256, 257, 256],
    before: 4,
    behind: 0,
    len: 398,
};

/// The same, cut off before the third.
const LEADS_ALONE: Units = Units { len: 387, ..LEADS };

/// Each form, whole and cut off, another one than the file's own, and reads that fail.
pub(crate) fn rows() -> &'static [Row] {
    &FORM_ROWS
}

static FORM_ROWS: [Row; 9] = [
    Row {
        name: "packets alone, as the option says",
        words: "-I file in --format ts -O file out",
        input: Input::Pids(&[256, 257, 256]),
        plan: ORDINARY,
    },
    Row {
        name: "packets before sixteen bytes, the last of which are wanting",
        words: "-I file in --format rs204 -O file out",
        input: Input::Units(TRAILS),
        plan: ORDINARY,
    },
    Row {
        name: "packets after four bytes, and ten bytes of a third",
        words: "-I file in --format m2ts -O file out",
        input: Input::Units(LEADS),
        plan: ORDINARY,
    },
    Row {
        name: "packets after four bytes, and three bytes more",
        words: "-I file --format=m2ts in -O file out",
        input: Input::Units(LEADS_ALONE),
        plan: ORDINARY,
    },
    Row {
        name: "a packet alone, read as one after four bytes",
        words: "-I file in --format m2ts -O file out",
        input: Input::Pids(&[256]),
        plan: ORDINARY,
    },
    Row {
        name: "packets after four bytes, read as packets alone",
        words: "-I file in -O file out",
        input: Input::Units(LEADS),
        plan: ORDINARY,
    },
    Row {
        name: "packets before sixteen bytes, and the second read fails",
        words: "-I file in --format rs204 -P filter --pid 256 -O file out",
        input: Input::Units(TRAILS),
        plan: DeskPlan {
            reads: &[2],
            ..ORDINARY
        },
    },
    Row {
        name: "packets after four bytes, and the read after these fails",
        words: "-I file in --format m2ts -O file out",
        input: Input::Units(LEADS),
        plan: DeskPlan {
            reads: &[2],
            read_piece: 4,
            ..ORDINARY
        },
    },
    Row {
        name: "a form that there is not",
        words: "-I file in --format mts -O file out",
        input: Input::Pids(&[256]),
        plan: ORDINARY,
    },
];
