//! The word that a stage reports with a visit.

use crate::StageEnd;

/// What a stage reports with a visit, besides the cells that it gives.
#[derive(Clone, Copy, PartialEq, Eq)]
pub struct StageWord {
    /// The number of cells at which the plugin agrees to end, reported with the visit that gives the
    /// last of them.
    pub agreed: Option<u64>,
    /// How the stage ends with this visit.
    pub ended: Option<StageEnd>,
}
