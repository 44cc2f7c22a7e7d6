//! The plugin `inject`, which replaces packets by those of sections, with its options. The layer above reads its
//! settings from words, makes the plugin of its settings and of the sections of their file, and uses it by the
//! clauses of `Plugin`.
#![tactic(auto)]

mod counting;
mod group;
mod inject;
mod inject_conf;
mod inject_words;
mod laws;
mod schedule;
mod supply;
mod turn;

pub use inject::{Inject, InjectSteps, new_inject};
pub use inject_conf::{InjectConf, InjectMode, LAST_CARRIER, LAST_TABLE};
pub use laws::cycles_are_put_in;
