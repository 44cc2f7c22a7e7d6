//! Packets that are read straight into the slots of a window, and written straight from there. The layer above uses
//! `read_in_place` and `write_in_place`.
#![tactic(auto)]

mod mend;
mod reading;
mod writing;

pub use reading::{Reading, read_in_place};
pub use writing::write_in_place;
