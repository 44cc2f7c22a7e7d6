//! The steps between the PCRs of each PID, and what is wrong with them. Packets come in with their positions; an error of each
//! goes out. The layer above keeps a `PcrSteps`: by the clauses of `meet` its errors are those of the definition.
#![tactic(auto)]

mod limits;
mod pcr_error;
mod pcr_laws;
mod pcr_steps;
mod step;

pub use limits::{LONGEST_STEP, MICROSECOND};
pub use pcr_error::PcrError;
pub use pcr_laws::a_dropped_cell_has_no_pcr;
pub use pcr_steps::PcrSteps;
