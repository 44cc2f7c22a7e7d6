//! Stages with their seats in the ring: each takes its turns from any thread, and what all of them did is one run
//! of the chain. The layer above uses the clauses of `run_threads`, which are those of `run_serial` in `chain_run`.
#![tactic(auto)]

mod driving;
mod laws;
mod stage;
mod start_line;
mod starting;
mod threaded_run;
mod threads;
mod turn;

pub use driving::{drive_ahead, finish};
pub use laws::together;
pub use stage::Stage;
pub use threaded_run::{end_run, run_threads, unseat_all};
pub use threads::drive_all;
pub use turn::Turn;
