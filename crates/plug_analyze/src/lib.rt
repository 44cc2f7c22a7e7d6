//! The plugin `analyze`. Packets come in and pass; the numbers of packets by PID, and the services in force, go out as
//! the summary. The layer above reads its settings from words, makes the plugin, and uses it by the clauses of `Plugin`,
//! which relate the summary to the cells that count.
#![tactic(auto)]

mod analyze;
mod analyze_conf;
mod analyze_words;
mod change;
mod counters;
mod note;
mod noted;
mod pid_counts;
mod service_count;
mod services;
mod summary;
mod totals;

pub use analyze::Analyze;
pub use analyze_conf::AnalyzeConf;
pub use pid_counts::PidCounts;
pub use service_count::ServiceCount;
