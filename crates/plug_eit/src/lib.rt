//! The plugin that edits EIT sections as they pass: `eit` changes events of one service, or removes them.
//! The layer above reads the settings from the words, makes the plugin from them, and uses it by the clauses of `Plugin`.
#![tactic(auto)]

mod eit;
mod eit_conf;
mod eit_edit;
mod eit_laws;
mod eit_words;
mod event_start;
mod events;
mod numbers;
mod short_event;
mod text_cut;

pub use eit::{Eit, new_eit};
pub use eit_conf::EitConf;
pub use eit_laws::a_number_is_edited_by_one_pid;
pub use followed_services::{ServiceWord, Unnamed};
pub use numbers::{LAST_ID, LAST_MODE, LAST_STATUS};
