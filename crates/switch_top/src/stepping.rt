//! One play after another.
ghost use Rattle.std.specs.Prelude.{◌≡◌, ◌+◌, ◌<◌, ◌≤◌, ◌^◌, ◌*◌, ℕ, suc, length, List, Bool};
ghost use Rattle.std.specs.String.{string_bytes};
ghost use Rattle.chain_core.specs.declared.core_plan.CorePlan.{CorePlan};
ghost use Rattle.chain_core.specs.CoreNumbers.{IsValidPlan};
ghost use Rattle.stage_run.specs.declared.output_part.OutputPart.{OutputPart};
ghost use Rattle.ts_outside.specs.Desk.{DeskView};
ghost use Rattle.switch_top.specs.PlayCuts.{end_of};
ghost use Rattle.switch_top.specs.PlayNames.{PlayName, plays_left};
ghost use Rattle.switch_top.specs.Nexts.{kind_of, CanPlay};
ghost use Rattle.switch_top.specs.declared.plays_left.PlaysLeft.{PlaysLeft};
ghost use Rattle.switch_top.specs.SoFar.{SoFar, WasPlayed, IsPresent, IsReady, IsCounted, TakesNext, Steps, AreAllPlayed};
ghost use Rattle.chain_plays.specs.declared.played.PlayEnd.TheVariants.{Input};
ghost use Rattle.chain_model.specs.declared.input_end.InputEnd.TheVariants.{End};

use crate::lines::push_line;
use crate::play_source::{ClosedPlay, PlaySource, close_play, into_own};
use crate::played_cut::{PlayedCut, PlayedEnd};
use crate::plays_left::PlaysLeft;
use crate::switching::{NextPlay, abandon_next, leave_play, open_next, play_ahead};
use chain_core::CorePlan;
use chain_plays::{AheadPlay, NoPlugin, OpenPlay, PlayedOut};
use plugin_trait::Plugin;
use stage_run::OutputPart;
use std::alloc::{AllocError, Global};
use std::marker::{Send, Sync};
use std::sync::Wait;
use std::thread::Threads;
use ts_outside::{Desk, Gate, NameText, Sink, Source};

/// Some plays are over, and this one is open.
pub(crate) struct Switching<A, K> {
    pub(crate) left: PlaysLeft,
    pub(crate) input: usize,
    pub(crate) now: A,
    pub(crate) output: OutputPart<K>,
    pub(crate) count: u128,
    pub(crate) text: String,
}

/// The state after the play at hand was played: its source is still open.
pub(crate) struct Played<S, A, K> {
    pub(crate) left: PlaysLeft,
    pub(crate) input: usize,
    pub(crate) next: NextPlay<A>,
    pub(crate) out: PlayedOut<S, K>,
    pub(crate) count: u128,
    pub(crate) text: String,
}

/// The state after its source was closed.
pub(crate) struct Present<A, K> {
    pub(crate) left: PlaysLeft,
    pub(crate) input: usize,
    pub(crate) next: NextPlay<A>,
    pub(crate) output: OutputPart<K>,
    pub(crate) cut: PlayedCut,
    pub(crate) count: u128,
    pub(crate) text: String,
}

/// The plays are over: how many packets all of them gave, their lines, and why the last one ended.
pub(crate) struct Switched<K> {
    pub(crate) output: OutputPart<K>,
    pub(crate) count: u128,
    pub(crate) text: String,
    pub(crate) input: usize,
    pub(crate) end: PlayedEnd,
}

/// The result of one step.
pub(crate) enum Flow<A, K> {
    Goes(Switching<A, K>),
    Over(Switched<K>),
    /// Out of memory.
    Wants(OutputPart<K>),
}

/// The result where the play could not be opened: it has given nothing.
const NOTHING: PlayedCut = PlayedCut {
    count: 0,
    end: PlayedEnd::ReadFault,
};

/// Goes on after a play that ended plainly: with the next one, if there is one.
fn begin_next<S: Source, A: OpenPlay<S>, K: Sink>(
    alloc: Global,
    present: Present<A, K>,
) -> Flow<A, K>
    requires counted { (resync : Bool) × (core : CorePlan) × (inputs : List (List ℕ)) × (names : List PlayName) × (start : DeskView)
        × (first : OutputPart K) × (desk : DeskView)
        × IsCounted (kind_of resync S.seen K.seen A.is_open) core inputs names start first present desk }
    requires plain { (left : ℕ) × (end_of present.cut.end ≡ Input (End left)) }
    ensures { (resync : Bool) (core : CorePlan) (inputs : List (List ℕ)) (names : List PlayName) (start : DeskView) (first : OutputPart K)
        (desk : DeskView)
        → (left_before : PlaysLeft) → IsCounted (kind_of resync S.seen K.seen A.is_open) core inputs names start first present desk
        → TakesNext inputs left_before present.left present.next
        → Steps (kind_of resync S.seen K.seen A.is_open) core inputs names start first left_before result desk }
{
    let Present {
        left,
        input,
        next,
        output,
        cut,
        count,
        mut text,
    } = present;
    match next {
        NextPlay::NoMore => Flow::Over(Switched {
            output,
            count,
            text,
            input,
            end: cut.end,
        }),
        NextPlay::Open { input, play } => Flow::Goes(Switching {
            left,
            input,
            now: play,
            output,
            count,
            text,
        }),
        NextPlay::Failed { input } => {
            if push_line(&mut text, alloc, input, &NOTHING).is_err() {
                return Flow::Wants(output);
            }
            Flow::Over(Switched {
                output,
                count,
                text,
                input,
                end: NOTHING.end,
            })
        }
    }
}

/// Ends the plays after one that did not end plainly.
fn end_here<R: Wait, D: Desk, A: OpenPlay<PlaySource<D::In>>>(
    rt: &R,
    desk: &mut D,
    present: Present<A, D::Out>,
) -> Flow<A, D::Out>
    requires counted { (resync : Bool) × (core : CorePlan) × (inputs : List (List ℕ)) × (names : List PlayName) × (start : DeskView)
        × (first : OutputPart D.Out) × IsCounted (kind_of resync ⟦<PlaySource<D::In> as Source>⟧.seen D.Out.seen A.is_open) core inputs names start first present
        (D.seen desk.old) }
    requires other { (left : ℕ) → end_of present.cut.end ≡ Input (End left) → ⊥ }
    ensures { (resync : Bool) (core : CorePlan) (inputs : List (List ℕ)) (names : List PlayName) (start : DeskView) (first : OutputPart D.Out)
        → IsCounted (kind_of resync ⟦<PlaySource<D::In> as Source>⟧.seen D.Out.seen A.is_open) core inputs names start first present (D.seen desk.old)
        → (left : PlaysLeft) → Steps (kind_of resync ⟦<PlaySource<D::In> as Source>⟧.seen D.Out.seen A.is_open) core inputs names start first left result (D.seen desk.new) }
{
    let Present {
        left: _,
        input,
        next,
        output,
        cut,
        count,
        text,
    } = present;
    abandon_next(rt, desk, next);
    Flow::Over(Switched {
        output,
        count,
        text,
        input,
        end: cut.end,
    })
}

/// Counts the packets of the play and adds its line; then the next one begins, or the plays are over.
fn go_on<R: Wait, D: Desk, A: OpenPlay<PlaySource<D::In>>>(
    rt: &R,
    alloc: Global,
    desk: &mut D,
    present: Present<A, D::Out>,
) -> Flow<A, D::Out>
    requires { (resync : Bool) × (core : CorePlan) × (inputs : List (List ℕ)) × (names : List PlayName) × (start : DeskView) × (first : OutputPart D.Out)
        × IsCounted (kind_of resync ⟦<PlaySource<D::In> as Source>⟧.seen D.Out.seen A.is_open) core inputs names start first present (D.seen desk.old) }
    ensures { (resync : Bool) (core : CorePlan) (inputs : List (List ℕ)) (names : List PlayName) (start : DeskView) (first : OutputPart D.Out)
        (left_before : PlaysLeft)
        → IsCounted (kind_of resync ⟦<PlaySource<D::In> as Source>⟧.seen D.Out.seen A.is_open) core inputs names start first present (D.seen desk.old)
        → TakesNext inputs left_before present.left present.next
        → Steps (kind_of resync ⟦<PlaySource<D::In> as Source>⟧.seen D.Out.seen A.is_open) core inputs names start first left_before result (D.seen desk.new) }
{
    match present.cut.end {
        PlayedEnd::Plain { left_out: _ } => {
            begin_next::<PlaySource<D::In>, A, D::Out>(alloc, present)
        }
        PlayedEnd::Sync { packet: _ } => end_here(rt, desk, present),
        PlayedEnd::ReadFault => end_here(rt, desk, present),
        PlayedEnd::TooLong => end_here(rt, desk, present),
        PlayedEnd::WriteFault => end_here(rt, desk, present),
    }
}

/// Counts the packets of the play at hand and adds its line to the report.
fn say_play<R: Wait, D: Desk, A: OpenPlay<PlaySource<D::In>>>(
    rt: &R,
    alloc: Global,
    desk: &mut D,
    present: Present<A, D::Out>,
) -> Flow<A, D::Out>
    requires { (resync : Bool) × (core : CorePlan) × (inputs : List (List ℕ)) × (names : List PlayName) × (start : DeskView) × (first : OutputPart D.Out)
        × IsPresent (kind_of resync ⟦<PlaySource<D::In> as Source>⟧.seen D.Out.seen A.is_open) core inputs names start first present present.count
        (string_bytes present.text) (D.seen desk.old) }
    ensures { (resync : Bool) (core : CorePlan) (inputs : List (List ℕ)) (names : List PlayName) (start : DeskView) (first : OutputPart D.Out)
        (left_before : PlaysLeft)
        → IsPresent (kind_of resync ⟦<PlaySource<D::In> as Source>⟧.seen D.Out.seen A.is_open) core inputs names start first present present.count
        (string_bytes present.text) (D.seen desk.old)
        → TakesNext inputs left_before present.left present.next
        → Steps (kind_of resync ⟦<PlaySource<D::In> as Source>⟧.seen D.Out.seen A.is_open) core inputs names start first left_before result (D.seen desk.new) }
{
    let Present {
        left,
        input,
        next,
        output,
        cut,
        count,
        mut text,
    } = present;
    match push_line(&mut text, alloc, input, &cut) {
        Ok(()) => {
            let count = count + u128::from(cut.count);
            go_on(
                rt,
                alloc,
                desk,
                Present {
                    left,
                    input,
                    next,
                    output,
                    cut,
                    count,
                    text,
                },
            )
        }
        Err(AllocError) => {
            abandon_next(rt, desk, next);
            Flow::Wants(output)
        }
    }
}

/// Closes the source of the play that was played, and goes on.
fn close_played<R: Wait, D: Desk, A: OpenPlay<PlaySource<D::In>>>(
    rt: &R,
    alloc: Global,
    desk: &mut D,
    played: Played<PlaySource<D::In>, A, D::Out>,
) -> Flow<A, D::Out>
    requires { (resync : Bool) × (core : CorePlan) × (inputs : List (List ℕ)) × (names : List PlayName) × (start : DeskView) × (first : OutputPart D.Out)
        × WasPlayed (kind_of resync ⟦<PlaySource<D::In> as Source>⟧.seen D.Out.seen A.is_open) core inputs names start first played (D.seen desk.old) }
    ensures { (resync : Bool) (core : CorePlan) (inputs : List (List ℕ)) (names : List PlayName) (start : DeskView) (first : OutputPart D.Out)
        (left_before : PlaysLeft)
        → WasPlayed (kind_of resync ⟦<PlaySource<D::In> as Source>⟧.seen D.Out.seen A.is_open) core inputs names start first played (D.seen desk.old)
        → TakesNext inputs left_before played.left played.next
        → Steps (kind_of resync ⟦<PlaySource<D::In> as Source>⟧.seen D.Out.seen A.is_open) core inputs names start first left_before result (D.seen desk.new) }
{
    let Played {
        left,
        input,
        next,
        out,
        count,
        text,
    } = played;
    let PlayedOut {
        source,
        output,
        cut,
    } = out;
    match cut {
        Ok(cut) => {
            let ClosedPlay { source, cut } = close_play(source, cut);
            desk.close_in(source);
            say_play(
                rt,
                alloc,
                desk,
                Present {
                    left,
                    input,
                    next,
                    output,
                    cut,
                    count,
                    text,
                },
            )
        }
        Err(AllocError) => {
            desk.close_in(into_own(source));
            abandon_next(rt, desk, next);
            Flow::Wants(output)
        }
    }
}

/// Plays the play at hand, closes its source and goes on.
fn play_on<R: Threads + Wait + Sync, D: Desk, G: Gate>(
    rt: &R,
    alloc: Global,
    gate: &G,
    desk: &mut D,
    state: Switching<AheadPlay<PlaySource<D::In>, D::Out, NoPlugin>, D::Out>,
    mut next: NextPlay<AheadPlay<PlaySource<D::In>, D::Out, NoPlugin>>,
) -> Flow<AheadPlay<PlaySource<D::In>, D::Out, NoPlugin>, D::Out>
    requires { (resync : Bool) × (core : CorePlan) × (inputs : List (List ℕ)) × (names : List PlayName) × (start : DeskView) × (first : OutputPart D.Out)
        × IsReady (kind_of resync ⟦<PlaySource<D::In> as Source>⟧.seen D.Out.seen ⟦<AheadPlay<PlaySource<D::In>, D::Out, NoPlugin> as OpenPlay<PlaySource<D::In>>>⟧.is_open) core inputs names start
        first state next (D.seen desk.old) }
    ensures { (resync : Bool) (core : CorePlan) (inputs : List (List ℕ)) (names : List PlayName) (start : DeskView) (first : OutputPart D.Out)
        (left_before : PlaysLeft)
        → IsReady (kind_of resync ⟦<PlaySource<D::In> as Source>⟧.seen D.Out.seen ⟦<AheadPlay<PlaySource<D::In>, D::Out, NoPlugin> as OpenPlay<PlaySource<D::In>>>⟧.is_open) core inputs names start
        first state next (D.seen desk.old)
        → TakesNext inputs left_before state.left next
        → Steps (kind_of resync ⟦<PlaySource<D::In> as Source>⟧.seen D.Out.seen ⟦<AheadPlay<PlaySource<D::In>, D::Out, NoPlugin> as OpenPlay<PlaySource<D::In>>>⟧.is_open) core inputs names start
        first left_before result (D.seen desk.new) }
{
    let Switching {
        left,
        input,
        now,
        output,
        count,
        text,
    } = state;
    let out = play_ahead(rt, alloc, gate, now, output, &mut next);
    close_played(
        rt,
        alloc,
        desk,
        Played {
            left,
            input,
            next,
            out,
            count,
            text,
        },
    )
}

/// Opens the next play, if there is one, and plays the one at hand.
pub(crate) fn step<R: Threads + Wait + Sync, D: Desk, G: Gate>(
    rt: &R,
    alloc: Global,
    gate: &G,
    desk: &mut D,
    core: &CorePlan,
    resync: bool,
    inputs: &[NameText],
    state: Switching<AheadPlay<PlaySource<D::In>, D::Out, NoPlugin>, D::Out>,
) -> Flow<AheadPlay<PlaySource<D::In>, D::Out, NoPlugin>, D::Out>
    requires valid { IsValidPlan core.now }
    requires plugins { core.now.plugins ≡ 0 }
    requires some { 0 < length inputs.now }
    requires few { length inputs.now < 2 ^ 62 }
    requires so_far { (names : List PlayName) × (start : DeskView) × (first : OutputPart D.Out)
        × SoFar (kind_of resync ⟦<PlaySource<D::In> as Source>⟧.seen D.Out.seen ⟦<AheadPlay<PlaySource<D::In>, D::Out, NoPlugin> as OpenPlay<PlaySource<D::In>>>⟧.is_open) core.now inputs.now names
        start first state (D.seen desk.old) }
    ensures { (names : List PlayName) (start : DeskView) (first : OutputPart D.Out)
        → SoFar (kind_of resync ⟦<PlaySource<D::In> as Source>⟧.seen D.Out.seen ⟦<AheadPlay<PlaySource<D::In>, D::Out, NoPlugin> as OpenPlay<PlaySource<D::In>>>⟧.is_open) core.now inputs.now names
        start first state (D.seen desk.old)
        → Steps (kind_of resync ⟦<PlaySource<D::In> as Source>⟧.seen D.Out.seen ⟦<AheadPlay<PlaySource<D::In>, D::Out, NoPlugin> as OpenPlay<PlaySource<D::In>>>⟧.is_open) core.now inputs.now names
        start first state.left result (D.seen desk.new) }
{
    let Switching {
        mut left,
        input,
        now,
        output,
        count,
        text,
    } = state;
    match open_next(alloc, desk, core, resync, inputs, &mut left) {
        Ok(next) => play_on(
            rt,
            alloc,
            gate,
            desk,
            Switching {
                left,
                input,
                now,
                output,
                count,
                text,
            },
            next,
        ),
        Err(AllocError) => {
            leave_play(rt, desk, now);
            Flow::Wants(output)
        }
    }
}

/// The result of all plays.
pub(crate) enum AllPlayed<K> {
    Over(Switched<K>),
    /// Out of memory.
    Wants(OutputPart<K>),
}

/// Plays the play at hand and those after it.
pub(crate) fn play_all<R: Threads + Wait + Sync, D: Desk, G: Gate>(
    rt: &R,
    alloc: Global,
    gate: &G,
    desk: &mut D,
    core: &CorePlan,
    resync: bool,
    inputs: &[NameText],
    mut state: Switching<AheadPlay<PlaySource<D::In>, D::Out, NoPlugin>, D::Out>,
) -> AllPlayed<D::Out>
    requires valid { IsValidPlan core.now }
    requires plugins { core.now.plugins ≡ 0 }
    requires some { 0 < length inputs.now }
    requires few { length inputs.now < 2 ^ 62 }
    requires so_far { (names : List PlayName) × (start : DeskView) × (first : OutputPart D.Out)
        × SoFar (kind_of resync ⟦<PlaySource<D::In> as Source>⟧.seen D.Out.seen ⟦<AheadPlay<PlaySource<D::In>, D::Out, NoPlugin> as OpenPlay<PlaySource<D::In>>>⟧.is_open) core.now inputs.now names
        start first state (D.seen desk.old) }
    ensures { (names : List PlayName) (start : DeskView) (first : OutputPart D.Out)
        → SoFar (kind_of resync ⟦<PlaySource<D::In> as Source>⟧.seen D.Out.seen ⟦<AheadPlay<PlaySource<D::In>, D::Out, NoPlugin> as OpenPlay<PlaySource<D::In>>>⟧.is_open) core.now inputs.now names
        start first state (D.seen desk.old)
        → AreAllPlayed (kind_of resync ⟦<PlaySource<D::In> as Source>⟧.seen D.Out.seen ⟦<AheadPlay<PlaySource<D::In>, D::Out, NoPlugin> as OpenPlay<PlaySource<D::In>>>⟧.is_open) core.now
        inputs.now names start first result (D.seen desk.new) }
{
    loop {
        match step(rt, alloc, gate, desk, core, resync, inputs, state) {
            Flow::Goes(next) => state = next,
            Flow::Over(over) => return AllPlayed::Over(over),
            Flow::Wants(output) => return AllPlayed::Wants(output),
        }
    }
}
