//! The ring: visits of stages come in from any thread, and cells of one block are handed on in place.
//! The layer above uses `Ring::visit` (held by another, or one visit of the machine), `Ring::close` and `one_run`.
//!
//! There is one row of slots, and no queue for each stage: a cell is in one place from the input to the output, and
//! each stage works on it there.
#![tactic(auto)]

mod bell;
mod closing;
mod hand;
mod laws;
mod making;
mod opening;
mod ring;
mod rule;
mod stage_seat;
mod state;
mod view;
mod visited;

pub use laws::{one_run, seat_laws};
pub use opening::{NewRing, new_ring};
pub use ring::Ring;
pub use stage_seat::StageSeat;
pub use state::State;
pub use view::{Key, View};
pub use visited::Visited;
