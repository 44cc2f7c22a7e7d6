//! Rows on the plugins that give packets later than they came.
use crate::carried::Carried;
use crate::inputs::Input;
use crate::row::Row;
use test_tools::ORDINARY;

/// A packet on PID 300, a PAT and a PMT that names this PID, a second packet on it, and one on a PID that none names.
const LATE_TABLES: Input = Input::Around(&[300], &[Carried::Pat, Carried::PmtOf300], &[300, 301]);

/// What these plugins give, with which labels.
pub(crate) fn rows() -> &'static [Row] {
    &WINDOW_ROWS
}

static WINDOW_ROWS: [Row; 12] = [
    Row {
        name: "rmorphan keeps what a table in its window names",
        words: "--add-stop-stuffing 3 -I file in -P rmorphan --window 3 -O file out",
        input: LATE_TABLES,
        plan: ORDINARY,
    },
    Row {
        name: "rmorphan drops what a table after its window names",
        words: "--add-stop-stuffing 1 -I file in -P rmorphan --window 1 -O file out",
        input: LATE_TABLES,
        plan: ORDINARY,
    },
    Row {
        name: "compact puts the null packets of each block last",
        words: "--add-stop-stuffing 3 -I file in -P compact --window 3 -O file out",
        input: Input::Pids(&[256, 8191, 257, 8191, 8191, 256]),
        plan: ORDINARY,
    },
    Row {
        name: "a packet that is given later has its own labels",
        words: "-I file in -P filter --pid 256 --set-label 3 -P compact --window 2 -P filter --label 3 -O file out",
        input: Input::Pids(&[8191, 256, 257, 8191]),
        plan: ORDINARY,
    },
    Row {
        name: "rmorphan with null packets in place",
        words: "-I file in -P rmorphan --window 1 --stuffing -O file out",
        input: Input::Pids(&[16, 300, 17]),
        plan: ORDINARY,
    },
    Row {
        name: "what rmorphan does not see stays in its place",
        words: "-I file in -P filter --pid 300-301 --set-label 1 -P rmorphan --window 1 --only-label 1 -O file out",
        input: Input::Pids(&[300, 16, 301, 302]),
        plan: ORDINARY,
    },
    Row {
        name: "restuff gives what waits in every second cell",
        words: "-I file in -P restuff --from 2000 --to 1000 -O file out",
        input: Input::Pids(&[300, 300, 8191, 300, 8191, 8191, 300, 8191, 8191, 8191]),
        plan: ORDINARY,
    },
    Row {
        name: "restuff refuses a packet that cannot wait",
        words: "-I file in -P restuff --from 4000 --to 1000 --window 2 -O file out",
        input: Input::Pids(&[300, 300, 300, 8191]),
        plan: ORDINARY,
    },
    Row {
        name: "as many wait as may, and stay inside",
        words: "-I file in -P restuff --from 4000 --to 1000 --window 3 -O file out",
        input: Input::Pids(&[300, 300, 300, 8191]),
        plan: ORDINARY,
    },
    Row {
        name: "null packets at the end bring them out",
        words: "--add-stop-stuffing 8 -I file in -P restuff --from 4000 --to 1000 --window 3 -O file out",
        input: Input::Pids(&[300, 300, 300, 8191]),
        plan: ORDINARY,
    },
    Row {
        name: "packets that were dropped before have no place",
        words: "-I file in -P filter --pid 300 -P restuff --from 2000 --to 1000 -P count --all -O file out",
        input: Input::Pids(&[300, 16, 300, 16, 300, 300, 16, 16]),
        plan: ORDINARY,
    },
    Row {
        name: "a packet takes its labels along, and a null packet that is put in has none",
        words: "-I file in -P filter --pid 256,8191 --set-label 3 -P restuff --from 1500 --to 1000 -P filter --label 3 -O file out",
        input: Input::Pids(&[257, 256, 8191, 8191, 8191, 256, 8191]),
        plan: ORDINARY,
    },
];

/// Words of these plugins that are no command line.
pub(crate) fn of_words() -> &'static [Row] {
    &WINDOW_WORD_ROWS
}

static WINDOW_WORD_ROWS: [Row; 6] = [
    Row {
        name: "compact without a window",
        words: "-I null 1 -P compact -O drop",
        input: Input::Pids(&[]),
        plan: ORDINARY,
    },
    Row {
        name: "a window of no packet",
        words: "-I null 1 -P rmorphan --window 0 -O drop",
        input: Input::Pids(&[]),
        plan: ORDINARY,
    },
    Row {
        name: "a window above the most packets",
        words: "-I null 1 -P compact --window 100001 -O drop",
        input: Input::Pids(&[]),
        plan: ORDINARY,
    },
    Row {
        name: "a rate above the one before",
        words: "-I null 1 -P restuff --from 1000000 --to 1000001 -O drop",
        input: Input::Pids(&[]),
        plan: ORDINARY,
    },
    Row {
        name: "a rate alone",
        words: "-I null 1 -P restuff --from 1000 -O drop",
        input: Input::Pids(&[]),
        plan: ORDINARY,
    },
    Row {
        name: "a rate below the least",
        words: "-I null 1 -P restuff --from 1000 --to 999 -O drop",
        input: Input::Pids(&[]),
        plan: ORDINARY,
    },
];
