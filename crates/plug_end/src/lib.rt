//! The plugin that ends a chain: `until` passes packets until a number of them, or a time of the stream, is reached.
//! The layer above reads the settings from the words, makes the plugin from them, and uses it by the clauses of `Plugin`.
#![tactic(auto)]

mod limits;
mod until;
mod until_conf;
mod until_words;

pub use limits::MOST_SECONDS;
pub use until::Until;
pub use until_conf::UntilConf;
