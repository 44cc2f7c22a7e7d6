//! A call whose two ends are open.

use chain_core::CorePlan;
use chain_run::Stages;

/// A call whose chain is ready, and whose two ends are open.
pub(crate) struct OpenedCall<S, K, P> {
    /// The numbers of the run.
    pub(crate) core: CorePlan,
    /// No plugin met a cell, and nothing was read or written.
    pub(crate) stages: Stages<S, K, P>,
}
