//! What a round of a run prints: the lines that each plugin gave out since the round before come in, as rows in the order of
//! positions, and one row goes out. The layer above uses the clause of `merge` and the law `a_round_prints_what_is_new`.
#![tactic(auto)]

mod laws;
mod merging;
mod plugin_row;
mod told_line;

pub use laws::{a_round_prints_what_is_new, rows_in_order};
pub use merging::merge;
pub use plugin_row::told_row;
pub use told_line::ToldLine;
