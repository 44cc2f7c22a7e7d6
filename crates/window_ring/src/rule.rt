//! The rule of the ring, as steps of its table.
//!
//! It holds one list of visits. What a seat knows is a part of that list, and numbers, links and marks are functions of
//! it. So a visit that changes nothing is an event too, and a visit's number is the length of the list before it. Lists
//! of what each stage gave and took, beside one another, would have to be kept in step.

ghost use Rattle.std.specs.Prelude.{◌+◌, ◌++◌, []};
ghost use Rattle.window_ring.specs.Turns.{Kept, Takes, Leaves};
ghost use Rattle.window_ring.specs.Views.{first_view, root_view, at_rest, spent_view};

use crate::state::State;
use crate::view::{Key, View};
use atomic_table::{Join, Play, Split, TableRule};

/// The rule of the table: one run of the machine, of which each seat has seen a part.
pub struct RingRule;

impl TableRule<State, View, Key> for RingRule {
    ghost holds = { Kept };

    ghost first = { first_view };
}

/// The turn is taken, or found held.
pub struct Taking;

impl Play<State, View> for Taking {
    ghost then = { Takes };
}

/// The turn is left, and the visit is one event.
pub struct Leaving;

impl Play<State, View> for Leaving {
    ghost then = { Leaves };
}

/// The seat of the next stage is split from the root.
pub struct Seating;

impl Split<View> for Seating {
    ghost left = { λ v. root_view v.key (v.made + 1) v.held };

    ghost right = { λ v. at_rest v.key v.made [] [] };
}

/// The seat of a stage is joined into the root.
pub struct Returning;

impl Join<View> for Returning {
    ghost both = { λ v w. root_view v.key v.made (w.held ++ v.held) };

    ghost spent = { spent_view };
}
