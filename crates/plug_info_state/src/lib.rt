//! What `info` keeps of a stream. Cells that count come in one by one; counts by PID, the clocks, and the tables in force
//! go out. The layer above uses `Tracker::take`, by which the parts are the definition's for all cells taken (`Tracks`).
#![tactic(auto)]

mod cat_in_force;
mod clock_span;
mod counters;
mod eit_counts;
mod extent;
mod kept_bats;
mod nit_in_force;
mod number_counts;
mod other_tables;
mod packet_counts;
mod sdt_and_bats;
mod spans;
mod tracker;

pub use kept_bats::BOUQUET_COUNT;
pub use tracker::Tracker;
