//! The chain as numbers: visits of stages come in; news, and at the end the cut and its cause, go out.
//! The layer above uses `Core::visit` (one visit is one event of the machine) and `every_order`.
#![tactic(auto)]

mod closed;
mod core_plan;
mod ending;
mod laws;
mod limit;
mod news;
mod numbers;
mod order;
mod progress;
mod stage_end;
mod stage_set;
mod stage_word;

pub use chain_model::{Cause, InputEnd, Reason};
pub use closed::Closed;
pub use core_plan::CorePlan;
pub use laws::{more_cells, news_promises, one_visit, quiet_is_over};
pub use news::News;
pub use numbers::Core;
pub use order::every_order;
pub use progress::Progress;
pub use stage_end::StageEnd;
pub use stage_set::StageSet;
pub use stage_word::StageWord;
