//! The plugin `info`. Packets come in and pass; what is in the stream goes out as the summary, as lines or as one JSON
//! object. The layer above reads its settings from words and uses it by the clauses of `Plugin`, which relate the summary
//! to the cells that count (`info_rule`).
#![tactic(auto)]

mod ca_system;
mod cat_lines;
mod info;
mod info_conf;
mod info_words;
mod json;
mod met_cells;
mod network_names;
mod pid_uses;
mod report;
mod service_status;
mod summary;
mod users;

pub use info::Info;
pub use info_conf::InfoConf;
