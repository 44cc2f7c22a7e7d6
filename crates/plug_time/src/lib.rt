//! The plugin that moves the times of TDT and TOT: `time` adds seconds to those that lie whole in a packet.
//! The layer above reads the settings from the words, makes the plugin from them, and uses it by the clauses of `Plugin`.
#![tactic(auto)]

mod has_time;
mod moved_times;
mod numbers;
mod section;
mod time;
mod time_conf;
mod time_words;
mod utc_time;

pub use numbers::{LEAST_SHIFT, MOST_SHIFT};
pub use time::{Time, new_time};
pub use time_conf::TimeConf;
