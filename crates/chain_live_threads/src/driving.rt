//! The two threads of a chain that tells its lines: what drives the input, and what drives the other stages.

ghost use Rattle.std.specs.Prelude.{◌≡◌, ◌+◌, true, length};
ghost use Rattle.stage_run.specs.Seeing.{seeing};
ghost use Rattle.chain_tells.specs.Printing.{PrintsLines};
ghost use Rattle.chain_live_threads.specs.Serving.{IsReady, Keeps};
ghost use Rattle.chain_live_threads.specs.Rows.{is_over, AreReady, Carried, HaveEnded};
ghost use Rattle.chain_live_threads.specs.RowWent.{RowReady, RowWent};

use crate::laws::run_laws;
use crate::live_stage::LiveStage;
use crate::round::{Round, serve_one, serve_row};
use crate::telling::{Telling, tell};
use chain_tells::LineTexts;
use chain_threads::Turn;
use plugin_trait::Plugin;
use std::alloc::Global;
use std::sync::Wait;
use std::thread::yield_now;
use ts_outside::{Desk, Gate, Sink, Source};
use window_ring::Ring;

/// Drives the stage of the input until it has ended, and sleeps where there is nothing for it to do.
#[tactic(auto, using(crate::proofs::Carries::kept_same, crate::proofs::Carries::kept_then, crate::proofs::Carries::one_still_ready))]
fn drive_first<R: Wait, S: Source, K: Sink, P: Plugin, G: Gate>(
    rt: &R,
    ring: &Ring,
    gate: &G,
    stage: &mut LiveStage<S, K, P>,
)
    requires ready { IsReady (seeing S.seen K.seen P.rule P.stands_for P.preallocated) ring.now stage.old }
    ensures keeps { Keeps (seeing S.seen K.seen P.rule P.stands_for P.preallocated) ring.now stage.old stage.new }
{
    for _ in rt.forever() {
        // Counted before the visit, so that no ring after it is missed.
        let heard = ring.heard(0);
        match stage.step(ring, gate) {
            Turn::Ended => return,
            Turn::Busy => yield_now(),
            Turn::Idle => ring.wait_news(rt, 0, heard),
            Turn::Worked => {}
        }
    }
}

/// Drives the input, the only stage of this row, until it has ended, and sleeps where there is nothing for it to do.
///
/// It needs the other stages to be driven meanwhile.
pub(crate) fn drive_input<R: Wait, S: Source, K: Sink, P: Plugin, G: Gate>(
    rt: &R,
    ring: &Ring,
    gate: &G,
    input: &mut [LiveStage<S, K, P>],
)
    requires one { length input.old ≡ 1 }
    requires ready { AreReady (seeing S.seen K.seen P.rule P.stands_for P.preallocated) ring.now input.old }
    ensures carried { Carried (seeing S.seen K.seen P.rule P.stands_for P.preallocated) ring.now input.old input.new }
{
    drive_first(rt, ring, gate, &mut input[0]);
}

/// A round of the stages after the input, after which their new lines are told.
fn serve_and_tell<S: Source, K: Sink, P: Plugin, G: Gate, D: Desk, L: LineTexts>(
    alloc: Global,
    ring: &Ring,
    gate: &G,
    row: &mut [LiveStage<S, K, P>],
    telling: &mut Telling,
    texts: &L,
    desk: &mut D,
) -> Round
    requires ready { RowReady (seeing S.seen K.seen P.rule P.stands_for P.preallocated) ring.now telling.old.told row.old }
    requires rows { length telling.old.lines.rows.items + 1 ≡ length row.old }
    ensures went { RowWent (seeing S.seen K.seen P.rule P.stands_for P.preallocated) ring.now
        (PrintsLines D.seen (L.text_of texts.now)) (telling.old.printing, desk.old) (telling.new.printing, desk.new)
        telling.old.told telling.new.told row.old row.new }
    ensures rows { length telling.new.lines.rows.items ≡ length telling.old.lines.rows.items }
    ensures ended { HaveEnded (is_over result) row.new }
{
    // It runs nothing: the proof cites it.
    run_laws::<S, K, P>();
    let came = serve_row(ring, gate, row);
    tell(alloc, ring, row, telling, texts, desk);
    came
}

/// Drives the stages after the input until they have ended, tells their lines after each round, and sleeps where there is nothing
/// for them to do.
///
/// It needs the input to be driven meanwhile. Only the input's visits are made elsewhere, and they ring for stage 1; what a stage
/// of the row does for another one counts as moved.
#[tactic(auto, using(crate::proofs::WentLemmas::went_same, crate::proofs::WentLemmas::went_then))]
pub(crate) fn drive_row<R: Wait, S: Source, K: Sink, P: Plugin, G: Gate, D: Desk, L: LineTexts>(
    rt: &R,
    alloc: Global,
    ring: &Ring,
    gate: &G,
    row: &mut [LiveStage<S, K, P>],
    telling: &mut Telling,
    texts: &L,
    desk: &mut D,
)
    requires ready { RowReady (seeing S.seen K.seen P.rule P.stands_for P.preallocated) ring.now telling.old.told row.old }
    requires rows { length telling.old.lines.rows.items + 1 ≡ length row.old }
    ensures went { RowWent (seeing S.seen K.seen P.rule P.stands_for P.preallocated) ring.now
        (PrintsLines D.seen (L.text_of texts.now)) (telling.old.printing, desk.old) (telling.new.printing, desk.new)
        telling.old.told telling.new.told row.old row.new }
    ensures rows { length telling.new.lines.rows.items ≡ length telling.old.lines.rows.items }
{
    for _ in rt.forever() {
        // Counted before the round, so that no ring after it is missed.
        let heard = ring.heard(1);
        match serve_and_tell(alloc, ring, gate, row, telling, texts, desk) {
            Round::Over => return,
            Round::Idle => ring.wait_news(rt, 1, heard),
            Round::Moved => {}
        }
    }
}

/// Drives all stages from the caller's thread, in rounds, until all have ended.
///
/// It needs no other thread, and may wait for none.
#[tactic(auto, using(crate::proofs::WentLemmas::went_same, crate::proofs::WentLemmas::went_then, crate::proofs::Carries::same, crate::proofs::Carries::then_))]
pub(crate) fn drive_here<R: Wait, S: Source, K: Sink, P: Plugin, G: Gate, D: Desk, L: LineTexts>(
    rt: &R,
    alloc: Global,
    ring: &Ring,
    gate: &G,
    input: &mut [LiveStage<S, K, P>],
    row: &mut [LiveStage<S, K, P>],
    telling: &mut Telling,
    texts: &L,
    desk: &mut D,
)
    requires one { length input.old ≡ 1 }
    requires input { AreReady (seeing S.seen K.seen P.rule P.stands_for P.preallocated) ring.now input.old }
    requires ready { RowReady (seeing S.seen K.seen P.rule P.stands_for P.preallocated) ring.now telling.old.told row.old }
    requires rows { length telling.old.lines.rows.items + 1 ≡ length row.old }
    ensures carried { Carried (seeing S.seen K.seen P.rule P.stands_for P.preallocated) ring.now input.old input.new }
    ensures went { RowWent (seeing S.seen K.seen P.rule P.stands_for P.preallocated) ring.now
        (PrintsLines D.seen (L.text_of texts.now)) (telling.old.printing, desk.old) (telling.new.printing, desk.new)
        telling.old.told telling.new.told row.old row.new }
    ensures rows { length telling.new.lines.rows.items ≡ length telling.old.lines.rows.items }
    ensures input_ended { HaveEnded true input.new }
    ensures ended { HaveEnded true row.new }
{
    for _ in rt.forever() {
        let first = serve_one(ring, gate, input);
        let came = serve_and_tell(alloc, ring, gate, row, telling, texts, desk);
        if first.is_over() {
            if came.is_over() {
                return;
            }
        }
    }
}
