//! The plugin `remap`, with its options. Packets come in, and go out on other PIDs; the PIDs that tables name change with
//! them. The layer above reads the settings from the words, makes the plugin from them, and uses it by the clauses of
//! `Plugin`.
#![tactic(auto)]

mod cat_pids;
mod descriptor_pids;
mod move_table;
mod pat_pids;
mod pid_edit;
mod pmt_pids;
mod remap;
mod remap_conf;
mod remap_words;
mod table_mapper;

pub use move_table::{Move, MoveTable};
pub use remap::{Remap, RemapSteps, new_remap};
pub use remap_conf::RemapConf;
