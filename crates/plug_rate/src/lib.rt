//! The plugin `rate`, which reports the bit rate of a stream over time. The layer above reads its settings from words, makes
//! the plugin of its settings, and uses it by the clauses of `Plugin`.
#![tactic(auto)]

mod bounds;
mod judged;
mod limits;
mod measure;
mod meter;
mod point;
mod rate;
mod rate_conf;
mod rate_lines;
mod rate_words;
mod rates;
mod sums;
mod verdict;

pub use bounds::Bounds;
pub use rate::Rate;
pub use rate_conf::RateConf;
