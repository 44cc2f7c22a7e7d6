//! A play that is played: its output takes its seat, both stages are driven to their ends, and the ring is closed.
ghost use Rattle.std.specs.Prelude.{◌≡◌, ◌≤◌, [], IfOk, IsOk};
ghost use Rattle.chain_core.specs.declared.core_plan.CorePlan.{CorePlan};
ghost use Rattle.stage_run.specs.Seeing.{seeing};
ghost use Rattle.stage_run.specs.declared.input_part.InputPart.TheVariants.{Stream};
ghost use Rattle.chain_run.specs.RunOf.{RunOf};
ghost use Rattle.chain_plays.specs.Plays.{IsAhead, IsPlaying, HasPlayed};

use crate::ahead::{AheadPlay, NO_STUFFING};
use crate::driving::drive_beside;
use atomic_table::Seat;
use chain_run::RunEnd;
use chain_threads::{Stage, drive_all, end_run, unseat_all};
use plugin_trait::Plugin;
use stage_run::{OutputPart, StagePart};
use std::alloc::Global;
use std::marker::{Send, Sync};
use std::sync::Wait;
use std::thread::Threads;
use ts_outside::{Gate, Sink, Source};
use window_ring::{Ring, StageSeat, State, View};

/// A play whose input and output both have their seats.
pub(crate) struct Playing<S, K, P> {
    pub(crate) ring: Ring,
    pub(crate) root: Seat<State, View>,
    /// Empty, with room for both.
    pub(crate) seats: Vec<StageSeat>,
    /// The input's and the output's.
    pub(crate) stages: Vec<Stage<S, K, P>>,
    /// Empty, with room for both.
    pub(crate) parts: Vec<StagePart<S, K, P>>,
}

/// The output takes its seat.
fn seat_output<S: Source, K: Sink, P: Plugin>(
    now: AheadPlay<S, K, P>,
    output: OutputPart<K>,
) -> Playing<S, K, P>
    requires { (plan : CorePlan) × (source : S)
        × IsAhead (seeing S.seen K.seen P.rule P.stands_for P.preallocated) plan source now }
    ensures { (plan : CorePlan) (source : S) → let see = seeing S.seen K.seen P.rule P.stands_for P.preallocated in
        IsAhead see plan source now → IsPlaying see plan source output result }
{
    let AheadPlay {
        ring,
        root,
        mut seats,
        mut stages,
        parts,
        gather,
    } = now;
    let part = StagePart::of_output(output, gather);
    stages.push_reserved(Stage::of(part, seats.remove(0)));
    Playing {
        ring,
        root,
        seats,
        stages,
        parts,
    }
}

/// Both stages have ended: the ring is closed, and the two ends are returned.
fn end_play<S: Source, K: Sink, P: Plugin>(
    alloc: Global,
    playing: Playing<S, K, P>,
) -> RunEnd<S, K, P>
    requires { (plan : CorePlan) × (source : S) × (to : OutputPart K)
        × HasPlayed (seeing S.seen K.seen P.rule P.stands_for P.preallocated) plan source to playing }
    ensures runs { (plan : CorePlan) (source : S) (to : OutputPart K)
        → let see = seeing S.seen K.seen P.rule P.stands_for P.preallocated in
        HasPlayed see plan source to playing → IfOk result.closed
        (RunOf see (Stream source) result.input NO_STUFFING [] result.plugins.items to result.output plan) }
    ensures ran { IsOk result.closed }
{
    let Playing {
        ring,
        root,
        mut seats,
        stages,
        mut parts,
    } = playing;
    unseat_all(stages, &mut parts, &mut seats);
    end_run(ring, root, seats, parts, Vec::new(alloc))
}

/// Plays a play to its end, and returns its two ends.
///
/// It may wait; no clause says that it returns.
pub(crate) fn play<
    R: Threads + Wait + Sync,
    S: Source + Send,
    K: Sink + Send,
    P: Plugin + Send,
    G: Gate,
>(
    rt: &R,
    alloc: Global,
    gate: &G,
    now: AheadPlay<S, K, P>,
    output: OutputPart<K>,
) -> RunEnd<S, K, P>
    requires { (plan : CorePlan) × (source : S)
        × IsAhead (seeing S.seen K.seen P.rule P.stands_for P.preallocated) plan source now }
    ensures runs { (plan : CorePlan) (source : S)
        → let see = seeing S.seen K.seen P.rule P.stands_for P.preallocated in
        IsAhead see plan source now → IfOk result.closed
        (RunOf see (Stream source) result.input NO_STUFFING [] result.plugins.items output result.output plan) }
    ensures ran { IsOk result.closed }
{
    let mut playing = seat_output(now, output);
    drive_all(rt, &playing.ring, gate, &mut playing.stages);
    end_play(alloc, playing)
}

/// Plays a play to its end, and returns its two ends. Meanwhile the input of the next one reads ahead, in a thread of its
/// own where one can be started.
///
/// It may wait; no clause says that it returns.
pub(crate) fn play_beside<
    R: Threads + Wait + Sync,
    S: Source + Send,
    K: Sink + Send,
    P: Plugin + Send,
    G: Gate,
>(
    rt: &R,
    alloc: Global,
    gate: &G,
    now: AheadPlay<S, K, P>,
    output: OutputPart<K>,
    next: &mut AheadPlay<S, K, P>,
) -> RunEnd<S, K, P>
    requires now { (plan : CorePlan) × (source : S)
        × IsAhead (seeing S.seen K.seen P.rule P.stands_for P.preallocated) plan source now }
    requires next { (plan : CorePlan) × (source : S)
        × IsAhead (seeing S.seen K.seen P.rule P.stands_for P.preallocated) plan source next.old }
    ensures runs { (plan : CorePlan) (source : S)
        → let see = seeing S.seen K.seen P.rule P.stands_for P.preallocated in
        IsAhead see plan source now → IfOk result.closed
        (RunOf see (Stream source) result.input NO_STUFFING [] result.plugins.items output result.output plan) }
    ensures ran { IsOk result.closed }
    ensures next { (plan : CorePlan) (source : S)
        → let see = seeing S.seen K.seen P.rule P.stands_for P.preallocated in
        IsAhead see plan source next.old → IsAhead see plan source next.new }
{
    let mut playing = seat_output(now, output);
    drive_beside(
        rt,
        gate,
        &playing.ring,
        &mut playing.stages,
        &next.ring,
        &mut next.stages,
    );
    end_play(alloc, playing)
}
