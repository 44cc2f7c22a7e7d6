//! Plays over rings, in threads: the next one is read ahead while the present one is played.
ghost use Rattle.std.specs.Prelude.{◌≡◌};
ghost use Rattle.chain_core.specs.declared.core_plan.CorePlan.{CorePlan};
ghost use Rattle.stage_run.specs.Seeing.{seeing};
ghost use Rattle.chain_plays.specs.Plays.{IsAhead};
ghost use Rattle.chain_plays.specs.Played.{HasPlayedOut};

use crate::PlayedOut;
use crate::ahead::AheadPlay;
use crate::no_plugin::NoPlugin;
use crate::played::played_out;
use crate::playing::{play, play_beside};
use plugin_trait::Plugin;
use stage_run::OutputPart;
use std::alloc::Global;
use std::marker::{Send, Sync};
use std::sync::Wait;
use std::thread::Threads;
use ts_outside::{Gate, Sink, Source};

/// Plays an open play to its end, and returns source and output.
///
/// Input and output run each in a thread of its own where these can be started, else both in the caller's. It may wait; no
/// clause says that it returns.
pub fn play_alone<R: Threads + Wait + Sync, S: Source + Send, K: Sink + Send, G: Gate>(
    rt: &R,
    alloc: Global,
    gate: &G,
    now: AheadPlay<S, K, NoPlugin>,
    output: OutputPart<K>,
) -> PlayedOut<S, K>
    requires { (plan : CorePlan) × (source : S) × IsAhead (seeing S.seen K.seen ⟦<NoPlugin as Plugin>⟧.rule
        ⟦<NoPlugin as Plugin>⟧.stands_for ⟦<NoPlugin as Plugin>⟧.preallocated) plan source now }
    ensures { (plan : CorePlan) (source : S) → IsAhead (seeing S.seen K.seen ⟦<NoPlugin as Plugin>⟧.rule
        ⟦<NoPlugin as Plugin>⟧.stands_for ⟦<NoPlugin as Plugin>⟧.preallocated) plan source now
        → HasPlayedOut S.seen K.seen plan.buffer source output result }
{
    played_out(play(rt, alloc, gate, now, output))
}

/// Plays an open play to its end, and returns source and output. Meanwhile the input of the next play reads ahead.
///
/// The next one reads in a thread of its own, until its ring is full, it has ended, or the present play is over. Where no thread
/// can be started for it, nothing of it is read before its turn. It may wait; no clause says that it returns.
pub fn play_with_next<R: Threads + Wait + Sync, S: Source + Send, K: Sink + Send, G: Gate>(
    rt: &R,
    alloc: Global,
    gate: &G,
    now: AheadPlay<S, K, NoPlugin>,
    output: OutputPart<K>,
    next: &mut AheadPlay<S, K, NoPlugin>,
) -> PlayedOut<S, K>
    requires now { (plan : CorePlan) × (source : S) × IsAhead (seeing S.seen K.seen ⟦<NoPlugin as Plugin>⟧.rule
        ⟦<NoPlugin as Plugin>⟧.stands_for ⟦<NoPlugin as Plugin>⟧.preallocated) plan source now }
    requires next { (plan : CorePlan) × (source : S) × IsAhead (seeing S.seen K.seen ⟦<NoPlugin as Plugin>⟧.rule
        ⟦<NoPlugin as Plugin>⟧.stands_for ⟦<NoPlugin as Plugin>⟧.preallocated) plan source next.old }
    ensures played { (plan : CorePlan) (source : S) → IsAhead (seeing S.seen K.seen ⟦<NoPlugin as Plugin>⟧.rule
        ⟦<NoPlugin as Plugin>⟧.stands_for ⟦<NoPlugin as Plugin>⟧.preallocated) plan source now
        → HasPlayedOut S.seen K.seen plan.buffer source output result }
    ensures next { (plan : CorePlan) (source : S) → IsAhead (seeing S.seen K.seen ⟦<NoPlugin as Plugin>⟧.rule
        ⟦<NoPlugin as Plugin>⟧.stands_for ⟦<NoPlugin as Plugin>⟧.preallocated) plan source next.old
        → IsAhead (seeing S.seen K.seen ⟦<NoPlugin as Plugin>⟧.rule
        ⟦<NoPlugin as Plugin>⟧.stands_for ⟦<NoPlugin as Plugin>⟧.preallocated) plan source next.new }
{
    played_out(play_beside(rt, alloc, gate, now, output, next))
}
