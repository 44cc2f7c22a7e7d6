//! Rows on a report that is printed while the run goes (`--live`): the order of its lines, its end, and what fails.
use crate::inputs::Input;
use crate::row::Row;
use test_tools::{DeskPlan, ORDINARY};

/// A row without a fault outside.
macro_rules! row {
    ($name:expr, $words:expr, $input:expr) => {
        Row {
            name: $name,
            words: $words,
            input: $input,
            plan: ORDINARY,
        }
    };
}

/// A row whose reports of these numbers fail. It has one thread: which lines are printed at once in two depends on time.
macro_rules! unreported {
    ($name:expr, $words:expr, $reports:expr) => {
        Row {
            name: $name,
            words: $words,
            input: Input::Counters(&[0, 2, 4, 6]),
            plan: DeskPlan {
                reports: $reports,
                ..ORDINARY
            },
        }
    };
}

/// Lines that are printed while the run goes.
pub(crate) fn rows() -> &'static [Row] {
    &LIVE_ROWS
}

static LIVE_ROWS: [Row; 18] = [
    row!(
        "live lines of two plugins, at one packet and at different ones",
        "--live -I file in -P continuity -P slice --drop 1 --pass 2 -P continuity -O drop",
        Input::Counters(&[0, 1, 2, 3, 5])
    ),
    row!(
        "the same lines after the run",
        "-I file in -P continuity -P slice --drop 1 --pass 2 -P continuity -O drop",
        Input::Counters(&[0, 1, 2, 3, 5])
    ),
    row!(
        "the same live lines in batches of one packet",
        "--live --buffer-packets 1 -I file in -P continuity -P slice --drop 1 --pass 2 -P continuity -O drop",
        Input::Counters(&[0, 1, 2, 3, 5])
    ),
    row!(
        "the same live lines in batches of seven packets",
        "--live --max-flushed-packets 7 -I file in -P continuity -P slice --drop 1 --pass 2 -P continuity -O drop",
        Input::Counters(&[0, 1, 2, 3, 5])
    ),
    row!(
        "live, and one plugin reports",
        "--live -I file in -P continuity -O drop",
        Input::Counters(&[0, 1, 3])
    ),
    row!(
        "live, and no plugin reports",
        "--live -I file in -O drop",
        Input::Counters(&[0, 1, 3])
    ),
    row!(
        "live, and until ends the run before a fault",
        "--live -I file in -P continuity -P until --packets 3 -O drop",
        Input::Counters(&[0, 2, 3, 5])
    ),
    row!(
        "live, and a joint end",
        "--live -I file in -P continuity -P until --packets 3 --joint-termination -O drop",
        Input::Counters(&[0, 2, 3, 5])
    ),
    row!(
        "live, and sync is lost",
        "--live -I file in -P count --total -O drop",
        Input::Lost(&[256, 256, 256], 376)
    ),
    row!(
        "live and bare",
        "--live --bare -I file in -P count --total -P continuity -O drop",
        Input::Counters(&[0, 1, 3])
    ),
    row!(
        "live and endless",
        "--live --endless -I file in -P continuity -O drop",
        Input::Counters(&[0, 1, 3])
    ),
    row!(
        "live, and a fault is to be told",
        "--live --fail-on-faults -I file in -P continuity -O drop",
        Input::Counters(&[0, 1, 3])
    ),
    Row {
        name: "live, and a write fails in a batch",
        words: "--live -I file in -P continuity -O file out",
        input: Input::Counters(&[0, 2, 4, 6]),
        plan: DeskPlan {
            read_piece: 752,
            writes: &[7],
            ..ORDINARY
        },
    },
    Row {
        name: "live, and the closing fails",
        words: "--live -I file in -P continuity -O file out",
        input: Input::Counters(&[0, 2]),
        plan: DeskPlan {
            closes: &[1],
            ..ORDINARY
        },
    },
    unreported!(
        "live, and the first report fails",
        "--live --threads 1 -I file in -P continuity -O file out",
        &[1]
    ),
    unreported!(
        "live, and the second report fails",
        "--live --threads 1 -I file in -P continuity -O file out",
        &[2]
    ),
    unreported!(
        "live, and the third report fails",
        "--live --threads 1 -I file in -P continuity -O file out",
        &[3]
    ),
    unreported!(
        "live, and the report of the end fails",
        "--live --threads 1 -I file in -P continuity -O file out",
        &[4]
    ),
];
