//! A run of a chain: an input, plugins and an output come in, and are returned with the cut and its cause.
//! The layer above uses the clauses of `run_serial`: cut, cause, what was written and what the plugins met are those of the
//! run without faults, or a fault ended the chain where it may.
//!
//! What a stage stands for is said of that stage alone (`Doing`), and what a run comes to is said of its visits and its
//! stages (`Ran`): the core, the buffer and the turns of the one thread are not in it. So a driver shows that its
//! stages made one run, and that it was closed when all had ended; what the run comes to is proved once, and the stages
//! are laid in a row and taken apart by the same two calls. The price is one premise: that a failed write came before
//! the joint position follows from the chain theorem for what the stage had seen, which no stage knows alone, so it is
//! in the promise and is met when the stages are together.
#![tactic(auto)]

mod cell_block;
mod laws;
mod parts;
mod run_end;
mod serial_chain;
mod serial_run;
mod stage_laws;
mod stages;

pub use cell_block::CellBlock;
pub use laws::{any_run, machine_laws};
pub use parts::{GivenBack, StageRooms, lay_stages, take_apart};
pub use run_end::RunEnd;
pub use serial_chain::SerialChain;
pub use serial_run::{SerialRun, begin, end, run_serial};
pub use stage_laws::one_stage;
pub use stages::Stages;
