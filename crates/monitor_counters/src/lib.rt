//! Errors of continuity counters, and of packets that come more than twice. Packets come in; an error of each goes out. The
//! layer above keeps a `LastMets`: by the clauses of `meet` its errors are those of the definition.
#![tactic(auto)]

mod counter_error;
mod counter_laws;
mod last_met;
mod last_mets;

pub use counter_error::CounterError;
pub use counter_laws::a_dropped_cell_has_no_counter;
pub use last_mets::LastMets;
