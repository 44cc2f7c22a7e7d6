//! The plugins that check packets: `count` counts them by PID, `continuity` checks their counters. The layer above
//! reads their settings from words, makes each plugin of its settings, and uses it by the clauses of `Plugin`.
#![tactic(auto)]

mod continuity;
mod continuity_options;
mod continuity_words;
mod count;
mod count_conf;
mod count_words;
mod note;
mod summary;

pub use continuity::Continuity;
pub use continuity_options::ContinuityOptions;
pub use count::Count;
pub use count_conf::CountConf;
pub use note::Note;
pub use plugin_notes::{
    ContinuityConf, ContinuityError, LastPackets, LineNote, PacketNote, Tally, pop_below, push_note,
};
