//! The editors of tables in a running stream, `pat`, `cat`, `pmt`, `sdt` and `nit`, with their options. Packets come in,
//! and packets of edited tables go out. The layer above reads the settings from the words, makes each plugin from its
//! settings, and uses it by the clauses of `Plugin`, which speak of the edit of each table.
#![tactic(auto)]

mod cat_conf;
mod cat_edit;
mod cat_plugin;
mod cat_words;
mod change_components;
mod change_program;
mod change_service;
mod edit_pid;
mod edit_words;
mod language;
mod limits;
mod nit_conf;
mod nit_edit;
mod nit_plugin;
mod nit_words;
mod numbers;
mod pat_conf;
mod pat_edit;
mod pat_plugin;
mod pat_words;
mod pmt_change_words;
mod pmt_changes;
mod pmt_conf;
mod pmt_edit;
mod pmt_on_pid;
mod pmt_place;
mod pmt_place_words;
mod pmt_plugin;
mod pmt_steps;
mod pmt_tables;
mod pmt_ways;
mod pmt_words;
mod put_first;
mod sdt_conf;
mod sdt_edit;
mod sdt_plugin;
mod sdt_words;
mod texts;
mod versions;

pub use cat_conf::EditCatConf;
pub use cat_edit::edit_cat;
pub use cat_plugin::{CatEdit, EditCat, new_edit_cat};
pub use edit_pid::{EditPid, EditPidSteps, new_edit_pid};
pub use nit_conf::EditNitConf;
pub use nit_edit::edit_nit;
pub use nit_plugin::{EditNit, NitEdit, new_edit_nit};
pub use pat_conf::EditPatConf;
pub use pat_edit::edit_pat;
pub use pat_plugin::{EditPat, PatEdit, new_edit_pat};
pub use plug_psi::Current;
pub use pmt_changes::PmtChanges;
pub use pmt_conf::EditPmtConf;
pub use pmt_edit::edit_pmt;
pub use pmt_place::PmtPlace;
pub use pmt_plugin::{EditPmt, new_edit_pmt};
pub use pmt_steps::PmtSteps;
pub use pmt_tables::{PmtEdit, PmtTables};
pub use pmt_ways::PmtWays;
pub use sdt_conf::EditSdtConf;
pub use sdt_edit::edit_sdt;
pub use sdt_plugin::{EditSdt, SdtEdit, new_edit_sdt};
