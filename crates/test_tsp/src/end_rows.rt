//! Rows on inputs, outputs and the ends of the input.
use crate::inputs::Input;
use crate::row::Row;
use test_tools::ORDINARY;

/// Three packets on two PIDs.
const THREE: [u16; 3] = [256, 257, 256];

/// Runs with no plugin, or one.
pub(crate) fn rows() -> &'static [Row] {
    &END_ROWS
}

static END_ROWS: [Row; 16] = [
    Row {
        name: "filter keeps one PID",
        words: "-I file in -P filter --pid 256 -O file out",
        input: Input::Pids(&THREE),
        plan: ORDINARY,
    },
    Row {
        name: "standard input and standard output",
        words: "-P filter --pid 256",
        input: Input::Pids(&THREE),
        plan: ORDINARY,
    },
    Row {
        name: "empty input",
        words: "-I file in -O file out",
        input: Input::Pids(&[]),
        plan: ORDINARY,
    },
    Row {
        name: "bytes left out",
        words: "-I file in -O file out",
        input: Input::Cut(&[256, 257], 205),
        plan: ORDINARY,
    },
    Row {
        name: "lost sync",
        words: "-I file in -O file out",
        input: Input::Lost(&[256, 256, 256], 376),
        plan: ORDINARY,
    },
    Row {
        name: "until before lost sync",
        words: "-I file in -P until --packets 2 -O file out",
        input: Input::Lost(&[256, 256, 256], 376),
        plan: ORDINARY,
    },
    Row {
        name: "stuffing",
        words: "--add-start-stuffing 2 --add-input-stuffing 1/2 --add-stop-stuffing 1 -I file in -O file out",
        input: Input::Pids(&THREE),
        plan: ORDINARY,
    },
    Row {
        name: "no stop nulls after lost sync",
        words: "--add-stop-stuffing 3 -I file in -O file out",
        input: Input::Lost(&[256, 256, 256], 376),
        plan: ORDINARY,
    },
    Row {
        name: "null packets",
        words: "-I null 2 -O file out",
        input: Input::Pids(&THREE),
        plan: ORDINARY,
    },
    Row {
        name: "nothing is opened",
        words: "-I null 4 -P filter --pid=0x1FFF -O drop",
        input: Input::Pids(&THREE),
        plan: ORDINARY,
    },
    Row {
        name: "a generated stream",
        words: "-I testgen 1 10 -O file out",
        input: Input::Pids(&THREE),
        plan: ORDINARY,
    },
    Row {
        name: "the tables of a generated stream",
        words: "-I testgen 1 1000 -P count --pid 0,17,4096-4097 -O drop",
        input: Input::Pids(&THREE),
        plan: ORDINARY,
    },
    Row {
        name: "a component on another PID",
        words: "-I testgen 1 10 -P remap 256=512 -O file out",
        input: Input::Pids(&THREE),
        plan: ORDINARY,
    },
    Row {
        name: "its packets alone on another PID",
        words: "-I testgen 1 10 -P remap --no-psi 256=512 -O file out",
        input: Input::Pids(&THREE),
        plan: ORDINARY,
    },
    Row {
        name: "as many tables as before",
        words: "-I testgen 1 1000 -P remap 256=512 -P count --pid 256,4096 -O drop",
        input: Input::Pids(&THREE),
        plan: ORDINARY,
    },
    Row {
        name: "drop opens nothing",
        words: "-I file in -O drop",
        input: Input::Pids(&THREE),
        plan: ORDINARY,
    },
];
