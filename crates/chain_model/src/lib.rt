//! The meaning of a chain, as definitions alone: rules of plugins, the lists that they make of a
//! list of cells, the cut, the cause of the end, and what is written and reported.
//! `specs/PureRun.antt` puts them together; every theorem about `tsp` is stated in its words.
#![tactic(auto)]

mod cause;
mod input_end;
mod laws;
mod positions;
mod reason;

pub use cause::Cause;
pub use input_end::InputEnd;
pub use laws::{each_position_by_itself, joint_is_at_the_cut};
pub use positions::POSITION_LIMIT;
pub use reason::Reason;
