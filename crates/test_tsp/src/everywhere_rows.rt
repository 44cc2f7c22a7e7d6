//! Rows on services that are taken out everywhere: of the guide, and of the lists of NIT and BATs too.
use crate::carried::Carried;
use crate::event_tables::EventTable;
use crate::inputs::Input;
use crate::listed_tables::ListedTable;
use crate::row::Row;
use test_tools::ORDINARY;

/// With `--everywhere` and without it, and where no PAT says which transport stream it is.
pub(crate) fn rows() -> &'static [Row] {
    &EVERYWHERE_ROWS
}

static EVERYWHERE_ROWS: [Row; 3] = [
    Row {
        name: "a service goes from the guide and from the lists of its own stream",
        words: "-I file in -P svremove 7 --everywhere -P tables --pid 16-18 -O drop",
        input: Input::Tables(&[
            Carried::Pat,
            Carried::Listed(ListedTable::Nit),
            Carried::Listed(ListedTable::Bat),
            Carried::Events(EventTable::Named),
            Carried::Events(EventTable::OfEight),
            Carried::Events(EventTable::TwoEvents),
        ]),
        plan: ORDINARY,
    },
    Row {
        name: "both services go, and descriptors without an item go with them",
        words: "-I file in -P svremove 8 7 --everywhere -P tables --pid 16-18 -O file out",
        input: Input::Tables(&[
            Carried::Pat,
            Carried::Listed(ListedTable::Nit),
            Carried::Listed(ListedTable::Bat),
            Carried::Events(EventTable::OfEight),
        ]),
        plan: ORDINARY,
    },
    Row {
        name: "without a PAT the lists stay, and the guide of the service goes",
        words: "-I file in -P svremove 7 --everywhere -P tables --pid 16-18 -O drop",
        input: Input::Tables(&[
            Carried::Listed(ListedTable::Nit),
            Carried::Events(EventTable::Named),
            Carried::Events(EventTable::OfEight),
        ]),
        plan: ORDINARY,
    },
];
