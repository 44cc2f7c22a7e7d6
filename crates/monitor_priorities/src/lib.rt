//! Errors of a stream by the indicators of ETSI TR 101 290, priority by priority, as far as packets tell them. Packets come in with
//! the stream's clock and the tables in force; errors go out, in the order of the indicators' numbers. The layer above keeps the
//! rows of each priority that is asked for: by the clauses of `meet` the errors are those of the definition.
#![tactic(auto)]

mod crc_reader;
mod crc_row;
mod event_rows;
mod first_rows;
mod priority_laws;
mod reading;
mod second_rows;
mod section_row;
mod service_tables;
mod table_kind;
mod table_row;
mod telling;
mod third_rows;

pub use first_rows::FirstRows;
pub use priority_laws::a_dropped_cell_leaves_the_priorities;
pub use second_rows::SecondRows;
pub use third_rows::ThirdRows;
