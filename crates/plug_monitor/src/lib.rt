//! The plugin `monitor`, which reports the errors of a stream by the indicators of ETSI TR 101 290, as far as packets tell them.
//! The layer above reads its settings from words, makes the plugin of its settings, and uses it by the clauses of `Plugin`.
#![tactic(auto)]

mod counts;
mod error_note;
mod limits;
mod monitor;
mod monitor_conf;
mod monitor_words;
mod note_lines;
mod summary;
mod watch;
mod watch_laws;

pub use monitor::Monitor;
pub use monitor_conf::MonitorConf;
