//! Tables that have no sections.
use ts_table_rows::TableRefusal;

/// A table's number and its refusal, and what it is about.
pub(crate) struct TableRow {
    pub(crate) about: &'static str,
    pub(crate) table: usize,
    pub(crate) refusal: TableRefusal,
}

/// The rows.
pub(crate) fn table_rows() -> &'static [TableRow] {
    static ROWS: [TableRow; 2] = [
        TableRow {
            about: "a table in one section that is too long",
            table: 0,
            refusal: TableRefusal::TooLarge { bytes: 1_030 },
        },
        TableRow {
            about: "a table of 257 sections",
            table: 12,
            refusal: TableRefusal::TooMany,
        },
    ];
    &ROWS
}
