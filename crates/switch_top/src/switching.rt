//! The play after the present one.
ghost use Rattle.std.specs.Prelude.{◌≡◌, ◌+◌, ◌<◌, ◌≤◌, ◌^◌, ℕ, suc, length, List, IfOk, IfErr, OnErr, [], IsOk, Option, Bool};
ghost use Rattle.chain_core.specs.declared.core_plan.CorePlan.{CorePlan};
ghost use Rattle.chain_core.specs.CoreNumbers.{IsValidPlan};
ghost use Rattle.stage_run.specs.Seeing.{seeing};
ghost use Rattle.ts_outside.specs.Desk.{DeskView, content, input_closed};
ghost use Rattle.ts_outside.specs.Source.{own_bytes};
ghost use Rattle.ts_outside.specs.Told.{told_length};
ghost use Rattle.chain_plays.specs.Plays.{IsAhead};
ghost use Rattle.chain_plays.specs.Played.{HasPlayedOut};
ghost use Rattle.switch_top.specs.Nexts.{kind_of, OpensNext, WantsNext, IsOpenPlay, CanPlay, SameNext, CanLeave, LeavesOpen, LeavesNext, IsSourceOf};
ghost use Rattle.search_source.specs.FileView.{of_either};
ghost use Rattle.switch_top.specs.PlaySources.{play_source};

use crate::play_source::{PlaySource, into_own, open_source};
use crate::plays_left::PlaysLeft;
use chain_core::CorePlan;
use chain_plays::{AheadPlay, NoPlugin, OpenPlay, PlayedOut, play_alone, play_with_next};
use plugin_trait::Plugin;
use stage_run::OutputPart;
use std::alloc::{AllocError, Global};
use std::marker::{Send, Sync};
use std::sync::Wait;
use std::thread::Threads;
use ts_outside::{Desk, Gate, NameText, OpenFault, Sink, Source};

/// The play after the present one.
pub(crate) enum NextPlay<A> {
    /// There is none.
    NoMore,
    /// It is open, and may be read ahead.
    Open { input: usize, play: A },
    /// It could not be opened.
    Failed { input: usize },
}

/// The play of a source of its own; where there is no memory for it, the file's own source is given back.
fn begin_play<S: Source, A: OpenPlay<PlaySource<S>>>(
    alloc: Global,
    core: &CorePlan,
    source: PlaySource<S>,
) -> Result<A, S>
    requires valid { IsValidPlan core.now }
    requires plugins { core.now.plugins ≡ 0 }
    ensures opened { IfOk result (λ play. A.is_open core.now source play) }
    ensures back { IfErr result (λ back. S.seen back ≡ of_either (λ own. S.seen own.source) (λ found. S.seen found.source.source) source) }
{
    match A::open(alloc, core, source) {
        Ok(play) => Ok(play),
        Err(source) => Err(into_own(source)),
    }
}

/// The play of a file's own source; where there is no memory for it, the source is given back.
fn seat_source<S: Source, A: OpenPlay<PlaySource<S>>>(
    alloc: Global,
    core: &CorePlan,
    resync: bool,
    source: S,
) -> Result<A, S>
    requires valid { IsValidPlan core.now }
    requires plugins { core.now.plugins ≡ 0 }
    requires own { (S.seen source).origin ≡ own_bytes }
    requires small { told_length (S.seen source).left < 2 ^ 63 }
    ensures opened { IfOk result (λ play. (content : Option (List ℕ)) → S.seen source ≡ record { left = content; faults = 0; origin = own_bytes }
        → IsSourceOf ⟦<PlaySource<S> as Source>⟧.seen A.is_open core.now (play_source resync content) play) }
    ensures back { IfErr result (λ back. S.seen back ≡ S.seen source) }
{
    match open_source(alloc, resync, source) {
        Ok(source) => begin_play(alloc, core, source),
        Err(source) => Err(source),
    }
}

/// The play of a file that was opened; where there is no memory for it, the file is closed.
fn seat_file<D: Desk, A: OpenPlay<PlaySource<D::In>>>(
    alloc: Global,
    desk: &mut D,
    core: &CorePlan,
    resync: bool,
    input: usize,
    source: D::In,
) -> Result<NextPlay<A>, AllocError>
    requires valid { IsValidPlan core.now }
    requires plugins { core.now.plugins ≡ 0 }
    requires own { (D.In.seen source).origin ≡ own_bytes }
    requires small { told_length (D.In.seen source).left < 2 ^ 63 }
    ensures opened { (old : DeskView) (name : List ℕ)
        → D.In.seen source ≡ record { left = content old name; faults = 0; origin = own_bytes }
        → IfOk result (IsOpenPlay (kind_of resync ⟦<PlaySource<D::In> as Source>⟧.seen D.Out.seen A.is_open) core.now old name input) }
    ensures stays { IfOk result (λ next. D.seen desk.new ≡ D.seen desk.old) }
    ensures closed { OnErr result (D.seen desk.new ≡ input_closed (D.seen desk.old) (D.In.seen source)) }
{
    match seat_source(alloc, core, resync, source) {
        Ok(play) => Ok(NextPlay::Open { input, play }),
        Err(source) => {
            desk.close_in(source);
            Err(AllocError)
        }
    }
}

/// Opens the next play, if there is one.
pub(crate) fn open_next<D: Desk, A: OpenPlay<PlaySource<D::In>>>(
    alloc: Global,
    desk: &mut D,
    core: &CorePlan,
    resync: bool,
    inputs: &[NameText],
    left: &mut PlaysLeft,
) -> Result<NextPlay<A>, AllocError>
    requires valid { IsValidPlan core.now }
    requires plugins { core.now.plugins ≡ 0 }
    requires some { 0 < length inputs.now }
    requires few { length inputs.now < 2 ^ 62 }
    requires within { left.old.at ≤ length inputs.now }
    ensures opened { IfOk result (OpensNext (kind_of resync ⟦<PlaySource<D::In> as Source>⟧.seen D.Out.seen A.is_open) core.now inputs.now left.old left.new
        (D.seen desk.old) (D.seen desk.new)) }
    ensures wants { OnErr result (WantsNext inputs.now left.old (D.seen desk.old) (D.seen desk.new)) }
    ensures within { left.new.at ≤ length inputs.now }
{
    let Some(place) = left.next(inputs) else {
        return Ok(NextPlay::NoMore);
    };
    let input = place + 1;
    match desk.open_in(Some(inputs[place].as_str())) {
        Ok(source) => seat_file(alloc, desk, core, resync, input, source),
        Err(OpenFault::Failed) => Ok(NextPlay::Failed { input }),
        Err(OpenFault::NoMemory) => Err(AllocError),
    }
}

/// Plays the present play to its end; meanwhile the next one is read ahead, if it is open.
pub(crate) fn play_ahead<R: Threads + Wait + Sync, S: Source + Send, K: Sink + Send, G: Gate>(
    rt: &R,
    alloc: Global,
    gate: &G,
    now: AheadPlay<S, K, NoPlugin>,
    output: OutputPart<K>,
    next: &mut NextPlay<AheadPlay<S, K, NoPlugin>>,
) -> PlayedOut<S, K>
    requires now { (plan : CorePlan) × (source : S) × IsAhead (seeing S.seen K.seen ⟦<NoPlugin as Plugin>⟧.rule
        ⟦<NoPlugin as Plugin>⟧.stands_for ⟦<NoPlugin as Plugin>⟧.preallocated) plan source now }
    requires next { (resync : Bool) × CanPlay (kind_of resync S.seen K.seen ⟦<AheadPlay<S, K, NoPlugin> as OpenPlay<S>>⟧.is_open) next.old }
    ensures played { (plan : CorePlan) (source : S) → IsAhead (seeing S.seen K.seen ⟦<NoPlugin as Plugin>⟧.rule
        ⟦<NoPlugin as Plugin>⟧.stands_for ⟦<NoPlugin as Plugin>⟧.preallocated) plan source now
        → HasPlayedOut S.seen K.seen plan.buffer source output result }
    ensures next { (resync : Bool) → SameNext (kind_of resync S.seen K.seen ⟦<AheadPlay<S, K, NoPlugin> as OpenPlay<S>>⟧.is_open) next.old next.new }
{
    match next {
        NextPlay::NoMore => play_alone(rt, alloc, gate, now, output),
        NextPlay::Open { input: _, play } => play_with_next(rt, alloc, gate, now, output, play),
        NextPlay::Failed { input: _ } => play_alone(rt, alloc, gate, now, output),
    }
}

/// Leaves the next play unplayed: it is ended and closed, if it was opened.
pub(crate) fn abandon_next<R: Wait, D: Desk, A: OpenPlay<PlaySource<D::In>>>(
    rt: &R,
    desk: &mut D,
    next: NextPlay<A>,
)
    requires { (resync : Bool) × CanPlay (kind_of resync ⟦<PlaySource<D::In> as Source>⟧.seen D.Out.seen A.is_open) next }
    ensures { (resync : Bool) → LeavesNext (kind_of resync ⟦<PlaySource<D::In> as Source>⟧.seen D.Out.seen A.is_open) next
        (D.seen desk.old) (D.seen desk.new) }
{
    match next {
        NextPlay::NoMore => {}
        NextPlay::Open { input: _, play } => leave_play(rt, desk, play),
        NextPlay::Failed { input: _ } => {}
    }
}

/// Ends a play that is not played, and closes its file.
pub(crate) fn leave_play<R: Wait, D: Desk, A: OpenPlay<PlaySource<D::In>>>(
    rt: &R,
    desk: &mut D,
    play: A,
)
    requires { (resync : Bool) × CanLeave (kind_of resync ⟦<PlaySource<D::In> as Source>⟧.seen D.Out.seen A.is_open) play }
    ensures { (resync : Bool) → LeavesOpen (kind_of resync ⟦<PlaySource<D::In> as Source>⟧.seen D.Out.seen A.is_open) play
        (D.seen desk.old) (D.seen desk.new) }
{
    desk.close_in(into_own(play.leave(rt)));
}
