//! The taken packets of a PID come in; its tables, edited and in cycles, go out in their place. From packets of any PID
//! come the PAT, the PMTs and the CAT in force, and the PIDs that they refer to. What edits share is here too: tables are
//! read and sections written, descriptors are kept within their room, and large values are handed over where memory may
//! run out.
//! The layer above uses `Editor::step`, by which each packet becomes that of the definition, `InForce`, and `Referred`.
#![tactic(auto)]

mod altered_tables;
mod bat_as_table;
mod by_pid;
mod cat_as_table;
mod changes;
mod contents;
mod current_pat;
mod current_table;
mod cycle_editor;
mod edit;
mod edited;
mod editor;
mod edits_table;
mod follow_editors;
mod follow_laws;
mod follow_readers;
mod follows;
mod follows_tables;
mod given;
mod handed_over;
mod in_force;
mod kept;
mod kept_cat;
mod kept_pat;
mod kept_pmts;
mod laws;
mod nit_as_table;
mod pat_as_table;
mod pat_services;
mod pid_flags;
mod pids_in_force;
mod pids_of_pmt;
mod pmt_as_table;
mod psi_table;
mod reading;
mod referred;
mod sdt_as_table;
mod unedited;
mod varied_editor;
mod varied_laws;
mod written;
mod written_table;

pub use by_pid::ByPid;
pub use changes::{ChangedOn, Changes, SeesChanges};
pub use current_table::read_current;
pub use cycle_editor::CycleEditor;
pub use edit::{Edited, TableEdit};
pub use editor::Editor;
pub use edits_table::{Current, EditsTable};
pub use follow_editors::SeededEdit;
pub use follow_laws::unfollowed_packets_change_nothing;
pub use follows::Follows;
pub use follows_tables::FollowsTables;
pub use given::Given;
pub use handed_over::both;
pub use in_force::InForce;
pub use laws::{contents_are_last_tables, last_found_is_the_last, later_packets_change_nothing};
pub use pat_services::{number_and_pid, pid_of_service};
pub use pid_flags::tell;
pub use pids_of_pmt::add_pids;
pub use psi_table::PsiTable;
pub use reading::Reading;
pub use referred::Referred;
pub use ts_demux::FailureLatch;
pub use unedited::Unedited;
pub use varied_editor::VariedEditor;
pub use varied_laws::an_edit_that_stays_is_one_edit;
pub use written::in_room;
pub use written_table::sections_or_same;
