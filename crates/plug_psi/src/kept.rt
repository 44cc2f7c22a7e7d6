//! The tables that come with a packet.

use ts_section::TableRun;

/// The tables that a packet completes, and whether one of them was kept.
#[derive(Drop)]
pub(crate) struct Kept {
    pub(crate) came: bool,
    pub(crate) tables: Vec<TableRun>,
}
