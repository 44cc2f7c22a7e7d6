//! PIDs to which no table refers. Packets come in with the stream's clock and the tables in force; the PIDs that are told go out.
//! The layer above keeps an `Orphans`: by the clauses of `meet` they are those of the definition.
#![tactic(auto)]

mod limits;
mod orphan;
mod orphan_laws;
mod orphans;
mod reach;

pub use limits::LONGEST_WAIT;
pub use orphan::Orphan;
pub use orphan_laws::a_dropped_cell_meets_no_pid;
pub use orphans::Orphans;
