//! A plugin that gives its summary at each so-many-th packet too: the rule that is made of the plugin's own, what that rule
//! changes, and the plugin that is made of any other one. A plugin comes in and a plugin goes out. The layer above uses
//! `rule_every`, the clauses of `MaybeEvery::of`, and the laws.
#![tactic(auto)]

mod due;
mod every_plugin;
mod giving;
mod laws;
mod maybe_every;

pub use due::Due;
pub use every_plugin::EveryPlugin;
pub use laws::{a_mark_behind_each_summary, a_summary_every_so_many, nothing_else_changes};
pub use maybe_every::MaybeEvery;
