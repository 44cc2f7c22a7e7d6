//! What programs of rows share: a text that is printed at once, a plan for the calls of a desk that is in a table,
//! and a count of runs with the same result.
//!
//! What programs of rows share is here, and what tests share is not: comparisons (`same` and the like) are once in each
//! of the four crates of tests. They end the process where values differ, which only tests may do here, so no library
//! can have them.
#![tactic(auto)]

mod desk_plan;
mod page;
mod tally;

pub use desk_plan::{DeskPlan, ORDINARY};
pub use page::Page;
pub use tally::Tally;
