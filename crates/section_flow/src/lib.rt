//! Sections of one PID that are edited as they pass. Packets come in one by one, each with the edit that applies then;
//! what leaves in their places is packets of the edited sections, and null packets where none waits. The layer above
//! uses `Flow::step`.
#![tactic(auto)]

mod carrier;
mod edit;
mod flow;
mod laws;
mod next;
mod packing;
mod room;

pub use edit::{SectionChange, SectionEdit};
pub use flow::Flow;
pub use laws::{
    an_edit_that_stays_goes_by_one_pid, each_place_by_itself, edited_sections_are_read,
    other_packets_are_untouched, packets_of_other_pids_change_nothing,
};
