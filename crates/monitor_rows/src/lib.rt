//! Rows of keys that tables ask for: what has to come again within a limit, for each service, PID or section that the tables in
//! force name. Packets come in with the stream's clock, the numbers that are named, and those that occur; gaps go out. The layer
//! above keeps a `KeyRow`: by the clauses of `rename` and `meet` the gaps are those of the row's definition.
#![tactic(auto)]

mod key_row;
mod row_gap;
mod row_key;
mod row_laws;

pub use key_row::KeyRow;
pub use row_gap::RowGap;
pub use row_key::RowKey;
pub use row_laws::{
    a_dropped_cell_leaves_the_row, a_packet_without_news_leaves_the_row,
    an_errored_packet_leaves_the_row, names_that_stay_leave_the_row,
};
