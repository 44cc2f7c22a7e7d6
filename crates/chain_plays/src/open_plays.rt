//! The kinds of a play whose input is open: with a ring of its own, which may be read ahead, and as the source alone.
//!
//! The kind is a parameter of all steps, definitions and lemmas. What needs threads, playing itself, is in functions
//! beside the trait, since a method of a trait cannot hand on that its own parameters may be sent to threads.
ghost use Rattle.std.specs.Prelude.{◌≡◌, ℕ, IfOk, IfErr};
ghost use Rattle.chain_core.specs.declared.core_plan.CorePlan.{CorePlan};
ghost use Rattle.chain_core.specs.CoreNumbers.{IsValidPlan};
ghost use Rattle.stage_run.specs.Seeing.{seeing};
ghost use Rattle.chain_plays.specs.Plays.{IsAhead, is_source};
ghost use Rattle.chain_plays.specs.Abandoned.{WasAbandoned};

use crate::abandoning::abandon;
use crate::ahead::{AheadPlay, open_play};
use crate::no_plugin::NoPlugin;
use chain_core::CorePlan;
use plugin_trait::Plugin;
use std::alloc::Global;
use std::sync::Wait;
use ts_outside::{OpenGate, Sink, Source};

/// A play whose input is open, and which is played or left.
///
/// What plays it is a function of its own for each kind: `play_alone` and `play_with_next`, or `play_here`.
pub trait OpenPlay<S: Source> {
    /// It is a play of this source by this plan.
    ghost is_open: { CorePlan → S → Self → Type 0 };

    /// Takes the memory of a play of a source, of which nothing is read yet. Where there is not enough, the source is given
    /// back and nothing is taken.
    fn open(alloc: Global, plan: &CorePlan, source: S) -> Result<Self, S>
        requires valid { IsValidPlan plan.now }
        requires plugins { plan.now.plugins ≡ 0 }
        ensures opened { IfOk result (λ play. is_open plan.now source play) }
        ensures back { IfErr result (λ back. back ≡ source) };

    /// The play is not played: its source is returned, of which some bytes may have been read, and at most one call failed,
    /// the last one. It may wait; no clause says that it returns.
    fn leave<R: Wait>(self, rt: &R) -> S
        requires { (plan : CorePlan) × (source : S) × is_open plan source self }
        ensures { (plan : CorePlan) (source : S) → is_open plan source self
            → WasAbandoned (S.seen source) (S.seen result) };
}

/// With a ring of its own: it may be read ahead.
impl<S: Source, K: Sink> OpenPlay<S> for AheadPlay<S, K, NoPlugin> {
    ghost is_open = { IsAhead (seeing S.seen K.seen ⟦<NoPlugin as Plugin>⟧.rule ⟦<NoPlugin as Plugin>⟧.stands_for
        ⟦<NoPlugin as Plugin>⟧.preallocated) };

    fn open(alloc: Global, plan: &CorePlan, source: S) -> Result<Self, S> {
        open_play(alloc, plan, source)
    }

    fn leave<R: Wait>(self, rt: &R) -> S {
        abandon(rt, &OpenGate, self)
    }
}

/// A source alone, of which nothing is read before its turn. It is played in the caller's thread.
pub struct HerePlay<S> {
    pub source: S,
}

impl<S: Source> OpenPlay<S> for HerePlay<S> {
    ghost is_open = { is_source };

    fn open(alloc: Global, plan: &CorePlan, source: S) -> Result<Self, S> {
        Ok(HerePlay { source })
    }

    fn leave<R: Wait>(self, rt: &R) -> S {
        let HerePlay { source } = self;
        source
    }
}
