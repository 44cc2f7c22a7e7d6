//! The plugins that need later packets before they output one: `compact` and `rmorphan`, with their options. The
//! layer above reads their settings from words, makes each plugin of its settings, and uses it by the clauses of
//! `Plugin`.
//!
//! Both are delay lines (`delay_rule` of `specs/DelayRule.antt`): what is given with a packet after those that came
//! before. Rule, line and laws are stated with that word.
#![tactic(auto)]

mod block_line;
mod compact;
mod compact_conf;
mod compact_words;
mod late_line;
mod laws;
mod rmorphan;
mod rmorphan_conf;
mod rmorphan_words;
mod slot;
mod window_conf;
mod window_words;

pub use compact::{Compact, CompactSteps, new_compact};
pub use compact_conf::CompactConf;
pub use laws::{compact_gives_blocks, delays_never_end, given_one_by_one, rmorphan_gives_referred};
pub use rmorphan::{Rmorphan, RmorphanSteps, new_rmorphan};
pub use rmorphan_conf::RmorphanConf;
pub use window_conf::WindowConf;
