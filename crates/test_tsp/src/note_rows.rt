//! Rows on notes: what a plugin notes of packets beyond the mark is bounded by the buffer, however long the stream is.
use crate::inputs::Input;
use crate::row::Row;
use test_tools::ORDINARY;

/// A million packets through a buffer of a thousand.
pub(crate) fn rows() -> &'static [Row] {
    &NOTE_ROWS
}

static NOTE_ROWS: [Row; 2] = [
    Row {
        name: "count of a million packets, a buffer of 1000",
        words: "--buffer-packets 1000 -I null 1000000 -P count -O drop",
        input: Input::Pids(&[]),
        plan: ORDINARY,
    },
    Row {
        name: "until after count of a million packets, a buffer of 1000",
        words: "--buffer-packets 1000 -I null 1000000 -P count -P until --packets 5 -O drop",
        input: Input::Pids(&[]),
        plan: ORDINARY,
    },
];
