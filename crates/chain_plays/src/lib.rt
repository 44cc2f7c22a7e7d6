//! One play of several: a source with a ring of its own comes in, which may be read ahead while the play before it is written,
//! and what was written of it, and how it ended, goes out. The layer above uses the clauses of `OpenPlay`, `play_alone`,
//! `play_with_next` and `play_here`.
#![tactic(auto)]

mod abandoning;
mod ahead;
mod at_once;
mod driving;
mod in_one_thread;
mod in_threads;
mod no_plugin;
mod open_plays;
mod played;
mod playing;

pub use abandoning::abandon;
pub use ahead::{AheadPlay, NO_STUFFING, open_play};
pub use in_one_thread::play_here;
pub use in_threads::{play_alone, play_with_next};
pub use no_plugin::NoPlugin;
pub use open_plays::{HerePlay, OpenPlay};
pub use played::{PlayCut, PlayEnd, PlayedOut};
