//! Transport packets come in one by one; the sections of one PID go out, and the tables that sections complete. The
//! layer above uses `Demux::feed`, by which the sections that were returned and those that wait are the definition's
//! list for all packets fed, or `PidTables::take`, which returns the tables that a packet completes.
#![tactic(auto)]

mod assembly;
mod changed_table;
mod demux;
mod era;
mod failure_latch;
mod laws;
mod pid_tables;
mod pieces;
mod reader;
mod section_crcs;
mod table_key;
mod table_laws;

pub use assembly::Assembly;
pub use changed_table::ChangedTable;
pub use demux::Demux;
pub use failure_latch::FailureLatch;
pub use laws::other_packets_change_nothing;
pub use pid_tables::PidTables;
pub use table_key::TableKey;
pub use table_laws::{
    other_packets_complete_nothing, tables_are_of_the_pid, uncounted_packets_change_nothing,
};
