//! Rows on the tables of the generated stream.
use crate::inputs::Input;
use crate::row::Row;
use test_tools::ORDINARY;

/// Its tables, reported, edited and left out.
pub(crate) fn rows() -> &'static [Row] {
    &GENERATED_ROWS
}

static GENERATED_ROWS: [Row; 3] = [
    Row {
        name: "the table of the first packet",
        words: "-I testgen 1 1 -P tables -O drop",
        input: Input::Pids(&[]),
        plan: ORDINARY,
    },
    Row {
        name: "svremove leaves the PCR of the other service, and its entry alone",
        words: "-I testgen 1 1000 -P svremove 1 -P count -P tables --pid 0 -O drop",
        input: Input::Pids(&[]),
        plan: ORDINARY,
    },
    Row {
        name: "sdt names a service beyond ASCII",
        words: "-I testgen 1 10 -P sdt --service 1 --name Été -O file out",
        input: Input::Pids(&[]),
        plan: ORDINARY,
    },
];
