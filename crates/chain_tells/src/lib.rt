//! A chain in one thread that tells its lines while it runs: between two rounds each plugin is asked for its lines below what
//! the output has given, and they are printed at a desk in the order of positions and then of the plugins.
//!
//! The layer above uses the clauses of `run_live`, or of `run_telling` where the source of the input has lines too; who makes the rounds itself uses those of `take_told` and the laws. After
//! `begin` of `chain_run` nothing was told; a round changes nothing of it; `take_told` takes what is new; and after `end` all
//! that was told are the lines of the run without faults, at positions before the cut. No line is lost: out of memory the
//! plugins keep theirs, and to tell lines takes none.
#![tactic(auto)]

mod input_laws;
mod laws;
mod line_row;
mod line_texts;
mod live_run;
mod printing;
mod round_run;
mod round_texts;
mod taking;
mod waiting_lines;

pub use input_laws::{an_input_beside_plugins, rounds_of_two_rows};
pub use laws::{a_round_tells_nothing, nothing_is_told_at_first, what_was_told_is_right};
pub use line_texts::LineTexts;
pub use live_run::{LiveEnd, run_live};
pub use printing::{Printing, print_lines, printing_well};
pub use round_run::run_telling;
pub use round_texts::RoundTexts;
pub use taking::take_told;
pub use waiting_lines::WaitingLines;
