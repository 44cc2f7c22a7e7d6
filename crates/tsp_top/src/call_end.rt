//! What a call came to.

use crate::call_notes::PluginNotes;
use crate::status::Status;
use chain_args::Plan;

/// What a call came to: its status, and what its explanation needs.
#[derive(Drop)]
pub struct CallEnd {
    /// How the call ended.
    pub status: Status,
    /// The plan of the words; `None` where they have none, or where memory ran out before they were read.
    pub plan: Option<Plan>,
    /// What was noted of the plugins, where that was asked. No clause speaks of it.
    pub notes: PluginNotes,
}
