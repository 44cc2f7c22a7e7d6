//! Rows on cycles: the packets of a PID that an editor rewrites, whose tables change in the middle of a cycle.
use crate::inputs::Input;
use crate::long_pat::{FIRST_OF_0, FIRST_OF_1, SECOND_OF_0, SECOND_OF_1};
use crate::row::Row;
use test_tools::ORDINARY;

/// A table that is complete in the middle of a cycle waits for the next one.
pub(crate) fn rows() -> &'static [Row] {
    &CYCLE_ROWS
}

static CYCLE_ROWS: [Row; 1] = [Row {
    name: "pat puts a service into tables of two packets",
    words: "-I file in -P pat --add-service 2/512 -O file out",
    input: Input::LongPats(&[
        FIRST_OF_0,
        SECOND_OF_0,
        FIRST_OF_0,
        FIRST_OF_1,
        SECOND_OF_1,
        FIRST_OF_1,
    ]),
    plan: ORDINARY,
}];
