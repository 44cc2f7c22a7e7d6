//! What a call of `tsswitch` came to.

use crate::plan::SwitchPlan;
use crate::status::SwitchStatus;

/// What a call came to: its status, and the plan by which it is explained.
#[derive(Drop)]
pub struct SwitchEnd {
    /// How the call ended.
    pub status: SwitchStatus,
    /// The plan of the words; `None` where they have none, or where memory ran out before they were read.
    pub plan: Option<SwitchPlan>,
}
