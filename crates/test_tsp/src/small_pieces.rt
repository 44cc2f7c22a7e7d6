//! Rows whose reads and writes move one byte each.
use crate::inputs::Input;
use crate::row::Row;
use test_tools::{DeskPlan, ORDINARY};

/// One byte a call.
const BYTE_BY_BYTE: DeskPlan = DeskPlan {
    read_piece: 1,
    write_piece: 1,
    ..ORDINARY
};

/// Their results are those with pieces of any size.
pub(crate) fn rows() -> &'static [Row] {
    &PIECE_ROWS
}

static PIECE_ROWS: [Row; 3] = [
    Row {
        name: "filter, byte by byte",
        words: "-I file in -P filter --pid 256 -O file out",
        input: Input::Pids(&[256, 257, 256]),
        plan: BYTE_BY_BYTE,
    },
    Row {
        name: "bytes left out, byte by byte",
        words: "-I file in -O file out",
        input: Input::Cut(&[256, 257], 205),
        plan: BYTE_BY_BYTE,
    },
    Row {
        name: "lost sync, byte by byte",
        words: "-I file in -O file out",
        input: Input::Lost(&[256, 256, 256], 376),
        plan: BYTE_BY_BYTE,
    },
];
