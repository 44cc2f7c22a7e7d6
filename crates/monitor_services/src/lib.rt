//! Errors of what the tables in force ask for: the PMT of each service, packets and time stamps of its sound and picture, its
//! PCRs, and its EIT present/following (ETSI TR 101 290, 1.5, 1.6, 2.3, 2.5 and 3.6). Packets come in with the stream's clock
//! and the tables in force; errors go out. The layer above keeps a row of each kind: by the clauses of `meet` the errors are those
//! of the row's definition.
#![tactic(auto)]

mod component_pids;
mod current_sdt;
mod event_numbers;
mod event_row;
mod limits;
mod occurrences;
mod pid_kind;
mod pid_numbers;
mod pid_row;
mod pmt_numbers;
mod pmt_reader;
mod pmt_row;
mod row_kind;
mod service_laws;
mod sorted_numbers;
mod stamp_row;
mod tables_come;

pub use event_row::EventRow;
pub use limits::{CLOCK_LIMIT, EVENT_LIMIT, PMT_LIMIT, STAMP_LIMIT};
pub use pid_kind::PidKind;
pub use pid_row::PidRow;
pub use pmt_row::PmtRow;
pub use service_laws::a_dropped_cell_leaves_the_rows;
pub use stamp_row::StampRow;
