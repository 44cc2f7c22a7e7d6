//! Rows on the names that `info` shows.
use crate::carried::Carried;
use crate::inputs::Input;
use crate::named_tables::NamedTable;
use crate::network_tables::NetworkTable;
use crate::row::Row;
use test_tools::ORDINARY;

/// What `info` shows of names.
pub(crate) fn rows() -> &'static [Row] {
    &NAME_ROWS
}

static NAME_ROWS: [Row; 6] = [
    Row {
        name: "info of a name with a control character, and of a provider with a quotation mark",
        words: "-I file in -P info -O drop",
        input: Input::Tables(&[Carried::Pat, Carried::Named(NamedTable::MarkedSdt)]),
        plan: ORDINARY,
    },
    Row {
        name: "the same as JSON, in which the quotation mark and the backslash are escaped",
        words: "-I file in -P info --json -O drop",
        input: Input::Tables(&[Carried::Pat, Carried::Named(NamedTable::MarkedSdt)]),
        plan: ORDINARY,
    },
    Row {
        name: "info of PIDs that tables in force name, and of codecs and languages that are there twice",
        words: "-I file in -P info -O drop",
        input: Input::Around(
            &[],
            &[
                Carried::Named(NamedTable::NetworkPat),
                Carried::Named(NamedTable::FullCat),
                Carried::Named(NamedTable::FullPmt),
            ],
            &[496, 600, 603, 700, 800, 3, 20, 21, 9, 900],
        ),
        plan: ORDINARY,
    },
    Row {
        name: "the same as JSON, with each codec and each language once",
        words: "-I file in -P info --json -O drop",
        input: Input::Around(
            &[],
            &[
                Carried::Named(NamedTable::NetworkPat),
                Carried::Named(NamedTable::FullCat),
                Carried::Named(NamedTable::FullPmt),
            ],
            &[496, 600, 603, 700, 800, 3, 20, 21, 9, 900],
        ),
        plan: ORDINARY,
    },
    Row {
        name: "info of a network, of bouquets in the order of their numbers, and of EIT sections",
        words: "-I file in -P info -O drop",
        input: Input::Tables(&[
            Carried::Pat,
            Carried::Network(NetworkTable::NamedNit),
            Carried::Network(NetworkTable::OtherNit),
            Carried::Network(NetworkTable::NamedBat),
            Carried::Network(NetworkTable::NamelessBat),
            Carried::Network(NetworkTable::PresentEit),
            Carried::Network(NetworkTable::PresentEit),
            Carried::Network(NetworkTable::OtherEit),
            Carried::Network(NetworkTable::ScheduleEit),
            Carried::Network(NetworkTable::OtherSchedule),
            Carried::Network(NetworkTable::EitOfTwo),
        ]),
        plan: ORDINARY,
    },
    Row {
        name: "the same as JSON, with the network and the bouquets",
        words: "-I file in -P info --json -O drop",
        input: Input::Tables(&[
            Carried::Pat,
            Carried::Network(NetworkTable::NamedNit),
            Carried::Network(NetworkTable::OtherNit),
            Carried::Network(NetworkTable::NamedBat),
            Carried::Network(NetworkTable::NamelessBat),
            Carried::Network(NetworkTable::PresentEit),
            Carried::Network(NetworkTable::PresentEit),
            Carried::Network(NetworkTable::OtherEit),
            Carried::Network(NetworkTable::ScheduleEit),
            Carried::Network(NetworkTable::OtherSchedule),
            Carried::Network(NetworkTable::EitOfTwo),
        ]),
        plan: ORDINARY,
    },
];
