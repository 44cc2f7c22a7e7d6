//! Rows on the plugins, one or a few at a time.
use crate::inputs::Input;
use crate::row::Row;
use test_tools::ORDINARY;

/// Three packets on two PIDs.
const THREE: [u16; 3] = [256, 257, 256];

/// Ten packets, each on a PID of its own.
const TEN: [u16; 10] = [300, 301, 302, 303, 304, 305, 306, 307, 308, 309];

/// Ten packets on one PID.
const SAME: [u16; 10] = [256; 10];

/// Ten packets, of which the last is on a PID of its own.
const REFUSED: [u16; 10] = [256, 256, 256, 256, 256, 256, 256, 256, 256, 512];

/// Plugins that change packets or end their list.
pub(crate) fn rows() -> &'static [Row] {
    &PLUGIN_ROWS
}

static PLUGIN_ROWS: [Row; 6] = [
    Row {
        name: "slice drops, passes and stops",
        words: "-I file in -P slice --drop 1 --pass 3 --stop 4 -O file out",
        input: Input::Pids(&TEN),
        plan: ORDINARY,
    },
    Row {
        name: "pattern at the end of a packet",
        words: "-I file in -P pattern ABCD --offset-non-pusi 182 -O file out",
        input: Input::Pids(&[256]),
        plan: ORDINARY,
    },
    Row {
        name: "until without its last packet",
        words: "-I file in -P until --packets 3 --exclude-last -O file out",
        input: Input::Pids(&TEN),
        plan: ORDINARY,
    },
    Row {
        name: "remap and until",
        words: "-I file in -P remap --no-psi 256=512 -P until --packets 5 -O file out",
        input: Input::Pids(&[256, 256, 256, 256, 256, 512, 256, 256, 256, 256]),
        plan: ORDINARY,
    },
    Row {
        name: "remap refuses a target that comes in",
        words: "-I file in -P remap --no-psi 256=512 -O file out",
        input: Input::Pids(&REFUSED),
        plan: ORDINARY,
    },
    Row {
        name: "remap unchecked",
        words: "-I file in -P remap --no-psi 256=512 --unchecked -O file out",
        input: Input::Pids(&REFUSED),
        plan: ORDINARY,
    },
];

/// Plugins that report, with sizes that may not change what they report.
pub(crate) fn of_watchers() -> &'static [Row] {
    &WATCH_ROWS
}

static WATCH_ROWS: [Row; 6] = [
    Row {
        name: "count of all after skip",
        words: "-I file in -P skip 1 -P count --all -O file out",
        input: Input::Pids(&THREE),
        plan: ORDINARY,
    },
    Row {
        name: "continuity puts counters right",
        words: "-I file in -P continuity --fix -O file out",
        input: Input::Counters(&[5, 6, 8, 8]),
        plan: ORDINARY,
    },
    Row {
        name: "count and until, a buffer of 1",
        words: "--buffer-packets 1 -I file in -P count -P until --packets 5 -O file out",
        input: Input::Pids(&SAME),
        plan: ORDINARY,
    },
    Row {
        name: "count and until, a buffer of 1000",
        words: "--buffer-packets 1000 -I file in -P count -P until --packets 5 -O file out",
        input: Input::Pids(&SAME),
        plan: ORDINARY,
    },
    Row {
        name: "skip, filter and count, one by one",
        words: "--buffer-packets 1 --max-flushed-packets 1 -I file in -P skip 1 -P filter --pid 256 -P count --total -O file out",
        input: Input::Pids(&THREE),
        plan: ORDINARY,
    },
    Row {
        name: "skip, filter and count, sizes by default",
        words: "-I file in -P skip 1 -P filter --pid 256 -P count --total -O file out",
        input: Input::Pids(&THREE),
        plan: ORDINARY,
    },
];

/// Plugins with joint termination.
pub(crate) fn of_joint_ends() -> &'static [Row] {
    &JOINT_ROWS
}

static JOINT_ROWS: [Row; 7] = [
    Row {
        name: "joint termination at 5 and 3",
        words: "-I file in -P until --packets 5 --joint-termination -P skip 2 -P until --packets 1 --joint-termination -O file out",
        input: Input::Pids(&TEN),
        plan: ORDINARY,
    },
    Row {
        name: "joint termination, one by one",
        words: "--buffer-packets 1 -I file in -P until --packets 5 --joint-termination -P skip 2 -P until --packets 1 --joint-termination -O file out",
        input: Input::Pids(&TEN),
        plan: ORDINARY,
    },
    Row {
        name: "joint termination ignored",
        words: "--ignore-joint-termination -I file in -P until --packets 5 --joint-termination -P skip 2 -P until --packets 1 --joint-termination -O file out",
        input: Input::Pids(&TEN),
        plan: ORDINARY,
    },
    Row {
        name: "joint termination that is never reached",
        words: "-I file in -P until --packets 5 --joint-termination -P until --packets 11 --joint-termination -O file out",
        input: Input::Pids(&TEN),
        plan: ORDINARY,
    },
    Row {
        name: "plain until before joint termination",
        words: "-I file in -P until --packets 4 -P until --packets 5 --joint-termination -O file out",
        input: Input::Pids(&TEN),
        plan: ORDINARY,
    },
    Row {
        name: "joint termination before a plain until",
        words: "-I file in -P until --packets 4 --joint-termination -P until --packets 4 -O file out",
        input: Input::Pids(&TEN),
        plan: ORDINARY,
    },
    Row {
        name: "a plain until where joint termination is ignored",
        words: "--ignore-joint-termination -I file in -P until --packets 3 --joint-termination -P until --packets 5 -O file out",
        input: Input::Pids(&TEN),
        plan: ORDINARY,
    },
];

/// Plugins that see only packets with a label.
pub(crate) fn of_labels() -> &'static [Row] {
    &LABEL_ROWS
}

static LABEL_ROWS: [Row; 3] = [
    Row {
        name: "count of the marked packets",
        words: "-I file in -P filter --pid 256 --set-label 3 -P count --only-label 3 -O file out",
        input: Input::Pids(&[256, 257, 256, 257]),
        plan: ORDINARY,
    },
    Row {
        name: "skip drops the first marked packet",
        words: "-I file in -P filter --pid 256 --set-label 3 -P skip 1 --only-label 3 -O file out",
        input: Input::Pids(&[256, 257, 256, 257]),
        plan: ORDINARY,
    },
    Row {
        name: "joint termination at the first marked packet",
        words: "-I file in -P filter --pid 256 --set-label 3 -P until --packets 1 --joint-termination --only-label 3 -O file out",
        input: Input::Pids(&[257, 256, 257]),
        plan: ORDINARY,
    },
];
