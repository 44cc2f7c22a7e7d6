//! The plan of a chain core.

use crate::StageSet;

/// What the core of a chain is made of. Stage 0 is the input, stages 1 to `plugins` are the plugins,
/// and stage `plugins` + 1 is the output.
#[derive(Clone, Copy)]
pub struct CorePlan {
    /// The number of plugins, at most 62.
    pub plugins: usize,
    /// How many cells may be between the input and the output, 1 to 1,000,000.
    pub buffer: usize,
    /// How many cells a stage takes with one visit at most, at least 1.
    pub most: usize,
    /// The plugins that use joint termination.
    pub users: StageSet,
}
