//! The set of all plugins. Settings come in; a plugin that follows their rule goes out.
//! The layer above makes each plugin by `AnyPlugin::of`, and uses it by the clauses of `Plugin` alone.
#![tactic(auto)]

mod any_plugin;
mod idle;
mod sees_tables;
mod some_plugin;

pub use any_plugin::AnyPlugin;
pub use idle::Idle;
pub use plug_psi::{ChangedOn, Changes};
pub use sees_tables::SeesTables;
