//! The top call of `tstabcomp`: words and a desk are given; the output is a file of sections or a JSON text, and
//! a status is returned. The program uses the clauses of `tabcomp_call` and of `TabStatus::exit_code`, and nothing else.
//!
//! It is above the compiler (`tabcomp_core`), which knows no desk: so a plugin can compile tables without the outside,
//! and what changes in the words or the order of openings has none of the compiler proved again.
#![tactic(auto)]

mod call;
mod conversion;
mod job;
mod law;
mod putting;
mod status;
mod task;
mod telling;

pub use call::tabcomp_call;
pub use law::{causes, completeness};
pub use status::TabStatus;
