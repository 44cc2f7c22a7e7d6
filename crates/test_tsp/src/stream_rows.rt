//! Rows on the contents of a stream: its PIDs, its services and its tables.
use crate::carried::Carried;
use crate::inputs::Input;
use crate::row::Row;
use crate::time_tables::TimeTable;
use test_tools::ORDINARY;

/// What `analyze` and `tables` report of null packets and of the generated stream, and `time` of tables with times.
pub(crate) fn rows() -> &'static [Row] {
    &STREAM_ROWS
}

static STREAM_ROWS: [Row; 10] = [
    Row {
        name: "null packets alone",
        words: "-I null 2 -P analyze -O drop",
        input: Input::Pids(&[]),
        plan: ORDINARY,
    },
    Row {
        name: "one service, its counters as they should be",
        words: "-I testgen 1 1000 -P zap 1 -P continuity --fix -P analyze -O drop",
        input: Input::Pids(&[]),
        plan: ORDINARY,
    },
    Row {
        name: "the services of the PAT at the cut",
        words: "-I testgen 1 1000 -P analyze -P until --packets 2 -O drop",
        input: Input::Pids(&[]),
        plan: ORDINARY,
    },
    Row {
        name: "tables of two PIDs",
        words: "-I testgen 1 1000 -P tables --pid 0,4096 -O drop",
        input: Input::Pids(&[]),
        plan: ORDINARY,
    },
    Row {
        name: "tables below the cut",
        words: "-I testgen 1 1000 -P tables --tid 2 -P until --packets 2 -O drop",
        input: Input::Pids(&[]),
        plan: ORDINARY,
    },
    Row {
        name: "a line for each TDT, TOT and RST, by its fields where it reads and a TOT's CRC is right",
        words: "-I file in -P tables --pid 19,20 -O drop",
        input: Input::Tables(&[
            Carried::Time(TimeTable::Tdt),
            Carried::Time(TimeTable::Tdt),
            Carried::Time(TimeTable::UnmarkedTdt),
            Carried::Time(TimeTable::Tot),
            Carried::Time(TimeTable::WrongTot),
            Carried::Time(TimeTable::TrailingTot),
            Carried::Time(TimeTable::Rst),
        ]),
        plan: ORDINARY,
    },
    Row {
        name: "time half an hour later, over midnight, in TDT and TOT, but not where a CRC is wrong",
        words: "-I file in -P time --shift=1800 -P tables --pid 20 -O drop",
        input: Input::Tables(&[
            Carried::Time(TimeTable::Tdt),
            Carried::Time(TimeTable::UnmarkedTdt),
            Carried::Time(TimeTable::Tot),
            Carried::Time(TimeTable::WrongTot),
            Carried::Time(TimeTable::TrailingTot),
        ]),
        plan: ORDINARY,
    },
    Row {
        name: "time without a TDT or a TOT, of which one with a wrong CRC is none",
        words: "--fail-on-faults -I file in -P time --shift=-3600 -O drop",
        input: Input::Tables(&[
            Carried::Pat,
            Carried::Time(TimeTable::WrongTot),
            Carried::Time(TimeTable::Rst),
        ]),
        plan: ORDINARY,
    },
    Row {
        name: "time with a TDT at the cut, which is not before it",
        words: "--fail-on-faults -I file in -P time --shift=-0 -P until --packets 1 -O file out",
        input: Input::Tables(&[Carried::Pat, Carried::Time(TimeTable::Tdt)]),
        plan: ORDINARY,
    },
    Row {
        name: "time with a TDT before the cut, which has the bytes that it had",
        words: "--fail-on-faults -I file in -P time --shift=-0 -P until --packets 2 -O file out",
        input: Input::Tables(&[
            Carried::Pat,
            Carried::Time(TimeTable::Tdt),
            Carried::Time(TimeTable::Tot),
        ]),
        plan: ORDINARY,
    },
];

/// Words of these plugins that are no command line.
pub(crate) fn of_words() -> &'static [Row] {
    &STREAM_WORD_ROWS
}

static STREAM_WORD_ROWS: [Row; 1] = [Row {
    name: "a table_id above 255",
    words: "-I null 2 -P tables --tid 256 -O drop",
    input: Input::Pids(&[]),
    plan: ORDINARY,
}];
