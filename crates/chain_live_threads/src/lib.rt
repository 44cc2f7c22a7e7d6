//! A chain that tells its lines while it runs, in two threads: the input in one, all other stages in the other, so that an output
//! that rests does not hold up what comes in.
//!
//! The stages of the second thread take turns in rounds. After each round the lines below what all of them know as written are
//! printed, and where no stage has news the thread sleeps until the input gives. The layer above uses the clauses of `run_apart`,
//! which are those of `run_live` of `chain_tells`.
#![tactic(auto)]

mod at_once;
mod driving;
mod ending;
mod laws;
mod live_stage;
mod meeting;
mod round;
mod run;
mod telling;
mod two_threads;

pub use run::run_apart;
