//! What a seat knows of the ring, in proofs alone.
//!
//! The key, which each view names, has where the block begins: a seat's steps are stated without the table's value, so
//! that its hand is of this ring's block has to follow from the view alone. The view also remembers the stages that
//! were found with the turn since the seat's last visit. Without that, a visit that always answers `Busy`, and never
//! looks, would meet the clause.

use cell_land::Bases;
use chain_core::{CorePlan, StageWord};
use std::collections::LinkedList;
use std::marker::Model;
use ts_packet::Cell;

/// A visit, as the proofs remember it. No value of it is made.
pub struct PastVisit {
    stage: usize,
    cells: LinkedList<Cell>,
    word: StageWord,
}

impl Model for PastVisit {
    ghost use Rattle.std.specs.Prelude.{◌≡◌};
    ghost use Rattle.chain_core.specs.Machine.{Visit, visit_of};
    ghost use Rattle.window_ring.specs.Codes.{visit_code};

    ghost Value = { Visit };

    ghost coded = { visit_code };

    ghost view = { λ v. visit_of v.stage v.cells v.word };
}

/// A stage, and all visits up to its last one.
pub struct Holding {
    /// The stage.
    pub stage: usize,
    /// The visits, the last one first.
    pub seen: LinkedList<PastVisit>,
}

/// What a seat knows. No value of it is made.
pub struct View {
    /// What never changes of the ring.
    pub key: Key,
    /// Whether it is the root, from which the stages' seats are split.
    pub is_root: bool,
    /// How many seats the root has made.
    pub made: usize,
    /// The stages that are its own, each with the visits that it has seen.
    pub held: LinkedList<Holding>,
    /// Whether it has the turn.
    pub inside: bool,
    /// The visits that had been made when it took the turn.
    pub at: LinkedList<PastVisit>,
    /// The stages that its compares found with the turn since it last had it, the last one first.
    pub busy: LinkedList<usize>,
}

/// What never changes of a ring: its plan, and where its block begins.
#[derive(Clone, Copy)]
pub struct Key {
    /// The chain's plan.
    pub plan: CorePlan,
    /// Where the block begins. The address gives no access to it.
    pub base: Bases,
}
