//! Rows on `eit`: events of a service are changed, or removed, in the sections that pass.
use crate::carried::Carried;
use crate::event_tables::EventTable;
use crate::inputs::Input;
use crate::row::Row;
use test_tools::ORDINARY;

/// Texts that are cut, starts, events and sections that go, what stays as it came, faults, and counters.
pub(crate) fn rows() -> &'static [Row] {
    &EIT_ROWS
}

static EIT_ROWS: [Row; 12] = [
    Row {
        name: "a longer name takes the place of its text",
        words: "-I file in -P eit --service 7 --event 3 --name New -O file out",
        input: Input::Tables(&[
            Carried::Events(EventTable::Named),
            Carried::Events(EventTable::OfEight),
            Carried::Events(EventTable::TwoEvents),
        ]),
        plan: ORDINARY,
    },
    Row {
        name: "a name longer than both is cut",
        words: "-I file in -P eit --service 7 --name Evening -P tables --pid 18 -O drop",
        input: Input::Tables(&[Carried::Events(EventTable::Named)]),
        plan: ORDINARY,
    },
    Row {
        name: "a text alone, and the name stays",
        words: "-I file in -P eit --service 7 --text on -P tables --pid 18 -O drop",
        input: Input::Tables(&[Carried::Events(EventTable::Named)]),
        plan: ORDINARY,
    },
    Row {
        name: "half an hour later, over midnight, but not an undefined start",
        words: "-I file in -P eit --service 7 --shift=1800 --running-status 1 --free-ca-mode 1 -P tables --pid 18 -O drop",
        input: Input::Tables(&[Carried::Events(EventTable::TwoEvents)]),
        plan: ORDINARY,
    },
    Row {
        name: "an event goes, and its sections stay",
        words: "-I file in -P eit --service 7 --event 3 --remove -O file out",
        input: Input::Tables(&[
            Carried::Events(EventTable::Named),
            Carried::Events(EventTable::TwoEvents),
        ]),
        plan: ORDINARY,
    },
    Row {
        name: "all sections of a service go, and null packets come",
        words: "-I file in -P eit --service 7 --remove -O file out",
        input: Input::Tables(&[
            Carried::Events(EventTable::Named),
            Carried::Events(EventTable::OfEight),
            Carried::Events(EventTable::TwoEvents),
            Carried::Events(EventTable::Unread),
        ]),
        plan: ORDINARY,
    },
    Row {
        name: "a section that does not read stays, and none is changed",
        words: "--fail-on-faults -I file in -P eit --service 7 --name New -O file out",
        input: Input::Tables(&[
            Carried::Events(EventTable::Unread),
            Carried::Events(EventTable::OfEight),
        ]),
        plan: ORDINARY,
    },
    Row {
        name: "eit with a section at the cut, which is not before it",
        words: "--fail-on-faults -I file in -P eit --service 7 --free-ca-mode 1 -P until --packets 1 -O file out",
        input: Input::Tables(&[Carried::Pat, Carried::Events(EventTable::Named)]),
        plan: ORDINARY,
    },
    Row {
        name: "eit with a section before the cut",
        words: "--fail-on-faults -I file in -P eit --service 7 --free-ca-mode 1 -P until --packets 2 -O file out",
        input: Input::Tables(&[Carried::Pat, Carried::Events(EventTable::Named)]),
        plan: ORDINARY,
    },
    Row {
        name: "scrambled packets of the EIT pass, and their counters go on",
        words: "-I file in -P eit --service 7 --name Go -O file out",
        input: Input::Scrambled(&[Carried::Events(EventTable::Named)], &[18, 18]),
        plan: ORDINARY,
    },
    Row {
        name: "packets that eit does not see keep their counters",
        words: "-I file in -P filter --unit-start --set-label 1 -P eit --service 7 --name Go --only-label 1 -O file out",
        input: Input::Around(&[18, 18], &[Carried::Events(EventTable::Named)], &[18]),
        plan: ORDINARY,
    },
    Row {
        name: "eit by a name, from the SDT on by which the service has it",
        words: "-I file in -P sdt --service 7 --name Seven -P eit --service Seven --remove -O file out",
        input: Input::Tables(&[
            Carried::Events(EventTable::Named),
            Carried::Sdt,
            Carried::Events(EventTable::Named),
            Carried::Events(EventTable::OfEight),
        ]),
        plan: ORDINARY,
    },
];

/// Words of `eit` that are no command line.
pub(crate) fn of_words() -> &'static [Row] {
    &EIT_WORD_ROWS
}

static EIT_WORD_ROWS: [Row; 5] = [
    Row {
        name: "eit without an edit",
        words: "-I null 2 -P eit --service 7 --event 3 -O drop",
        input: Input::Pids(&[]),
        plan: ORDINARY,
    },
    Row {
        name: "eit that removes and renames",
        words: "-I null 2 -P eit --service 7 --remove --name New -O drop",
        input: Input::Pids(&[]),
        plan: ORDINARY,
    },
    Row {
        name: "eit without a service",
        words: "-I null 2 -P eit --event 3 --remove -O drop",
        input: Input::Pids(&[]),
        plan: ORDINARY,
    },
    Row {
        name: "a running_status of eit above the greatest",
        words: "-I null 2 -P eit --service 7 --running-status 8 -O drop",
        input: Input::Pids(&[]),
        plan: ORDINARY,
    },
    Row {
        name: "eit of the service 0",
        words: "-I null 2 -P eit --service 0 --remove -O drop",
        input: Input::Pids(&[]),
        plan: ORDINARY,
    },
];
