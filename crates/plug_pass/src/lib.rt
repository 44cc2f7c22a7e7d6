//! The plugins that pass, drop, label or overwrite packets: `filter`, `skip`, `slice`, `pattern`, each with its options.
//! The layer above reads the settings from the words, makes each plugin from its settings, and uses it by the clauses of `Plugin`.
#![tactic(auto)]

mod filter;
mod filter_conf;
mod filter_words;
mod pattern;
mod pattern_conf;
mod pattern_words;
mod skip;
mod skip_conf;
mod skip_words;
mod slice;
mod slice_conf;
mod slice_words;

pub use filter::{Filter, FilterSteps, new_filter};
pub use filter_conf::FilterConf;
pub use pattern::{Pattern, PatternSteps, new_pattern};
pub use pattern_conf::PatternConf;
pub use skip::{Skip, SkipSteps, new_skip};
pub use skip_conf::SkipConf;
pub use slice::{Slice, SliceSteps, new_slice};
pub use slice_conf::SliceConf;
