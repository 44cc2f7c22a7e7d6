//! The input in a thread of its own, and all other stages in the caller's.

ghost use Rattle.std.specs.Prelude.{◌≡◌, ◌+◌, true, length};
ghost use Rattle.std.specs.Thread.{IsSync};
ghost use Rattle.stage_run.specs.Seeing.{seeing};
ghost use Rattle.chain_tells.specs.Printing.{PrintsLines};
ghost use Rattle.chain_live_threads.specs.Rows.{AreReady, Carried, HaveEnded};
ghost use Rattle.chain_live_threads.specs.RowWent.{RowReady, RowWent};
ghost use Rattle.chain_live_threads.specs.AllWent.{AllReady, AllWent};

use crate::at_once::on_both;
use crate::driving::{drive_here, drive_input, drive_row};
use crate::live_stage::LiveStage;
use crate::meeting::Meeting;
use crate::telling::Telling;
use chain_tells::LineTexts;
use plugin_trait::Plugin;
use std::alloc::Global;
use std::marker::{Send, Sync};
use std::sync::Wait;
use std::thread;
use std::thread::Threads;
use ts_outside::{Desk, Gate, Sink, Source};
use window_ring::Ring;

/// Whether a thread can run beside the caller's. It is started for this alone, and ends before this returns.
pub(crate) fn can_start<R: Threads + Wait>(rt: &R) -> bool {
    thread::scope(
        thread::scope_env(),
        rt,
        |scope| scope.spawn(move || ()).is_ok(),
    )
}

/// Drives the input, where the caller's thread still waits for it.
#[tactic(auto, using(crate::proofs::Carries::same))]
fn drive_front<R: Wait, S: Source, K: Sink, P: Plugin, G: Gate>(
    rt: &R,
    here: &Meeting,
    ring: &Ring,
    gate: &G,
    input: &mut [LiveStage<S, K, P>],
)
    requires one { length input.old ≡ 1 }
    requires ready { AreReady (seeing S.seen K.seen P.rule P.stands_for P.preallocated) ring.now input.old }
    ensures carried { Carried (seeing S.seen K.seen P.rule P.stands_for P.preallocated) ring.now input.old input.new }
{
    if here.comes() {
        drive_input(rt, ring, gate, input);
    }
}

/// Drives the other stages, where the input's thread has come in time.
#[tactic(auto, using(crate::proofs::WentLemmas::went_same))]
fn drive_back<R: Wait, S: Source, K: Sink, P: Plugin, G: Gate, D: Desk, L: LineTexts>(
    rt: &R,
    here: &Meeting,
    alloc: Global,
    ring: &Ring,
    gate: &G,
    row: &mut [LiveStage<S, K, P>],
    telling: &mut Telling,
    texts: &L,
    desk: &mut D,
)
    requires ready { RowReady (seeing S.seen K.seen P.rule P.stands_for P.preallocated) ring.now telling.old.told row.old }
    requires rows { length telling.old.lines.rows.items + 1 ≡ length row.old }
    ensures went { RowWent (seeing S.seen K.seen P.rule P.stands_for P.preallocated) ring.now
        (PrintsLines D.seen (L.text_of texts.now)) (telling.old.printing, desk.old) (telling.new.printing, desk.new)
        telling.old.told telling.new.told row.old row.new }
    ensures rows { length telling.new.lines.rows.items ≡ length telling.old.lines.rows.items }
{
    if here.waits(rt) {
        drive_row(rt, alloc, ring, gate, row, telling, texts, desk);
    }
}

/// Drives the input in a thread of its own and the row in the caller's until all have ended, where that thread has come in time;
/// else the stages stay as they are.
fn drive_both<
    R: Threads + Wait + Sync,
    S: Source + Send,
    K: Sink + Send,
    P: Plugin + Send,
    G: Gate,
    D: Desk,
    L: LineTexts,
>(
    rt: &R,
    here: &Meeting,
    alloc: Global,
    ring: &Ring,
    gate: &G,
    input: &mut [LiveStage<S, K, P>],
    row: &mut [LiveStage<S, K, P>],
    telling: &mut Telling,
    texts: &L,
    desk: &mut D,
)
    requires one { length input.old ≡ 1 }
    requires input { AreReady (seeing S.seen K.seen P.rule P.stands_for P.preallocated) ring.now input.old }
    requires ready { RowReady (seeing S.seen K.seen P.rule P.stands_for P.preallocated) ring.now telling.old.told row.old }
    requires rows { length telling.old.lines.rows.items + 1 ≡ length row.old }
    ensures carried { Carried (seeing S.seen K.seen P.rule P.stands_for P.preallocated) ring.now input.old input.new }
    ensures went { RowWent (seeing S.seen K.seen P.rule P.stands_for P.preallocated) ring.now
        (PrintsLines D.seen (L.text_of texts.now)) (telling.old.printing, desk.old) (telling.new.printing, desk.new)
        telling.old.told telling.new.told row.old row.new }
    ensures rows { length telling.new.lines.rows.items ≡ length telling.old.lines.rows.items }
{
    on_both(
        rt,
        &|input: &mut [LiveStage<S, K, P>]|
            requires { IsSync R.row × IsSync G.row × (length input.now ≡ 1)
                × AreReady (seeing S.seen K.seen P.rule P.stands_for P.preallocated) ring.now input.now }
            ensures { Carried (seeing S.seen K.seen P.rule P.stands_for P.preallocated) ring.entry.now
                input.entry.now input.exit.now }
        { drive_front(rt, here, ring, gate, input) },
        &|row: &mut [LiveStage<S, K, P>], telling: &mut Telling, desk: &mut D|
            requires { RowReady (seeing S.seen K.seen P.rule P.stands_for P.preallocated) ring.now telling.now.told row.now
                × (length telling.now.lines.rows.items + 1 ≡ length row.now) }
            ensures { RowWent (seeing S.seen K.seen P.rule P.stands_for P.preallocated) ring.entry.now
                (PrintsLines D.seen (L.text_of texts.entry.now)) (telling.entry.now.printing, desk.entry.now)
                (telling.exit.now.printing, desk.exit.now) telling.entry.now.told telling.exit.now.told
                row.entry.now row.exit.now
                × (length telling.exit.now.lines.rows.items ≡ length telling.entry.now.lines.rows.items) }
        { drive_back(rt, here, alloc, ring, gate, row, telling, texts, desk) },
        input,
        row,
        telling,
        desk,
    );
}

/// Drives the stages of a chain until all have ended, the input in a thread of its own and the others in the caller's. Where no
/// thread can be started in time, all of them in the caller's.
#[tactic(auto, using(crate::proofs::Carries::then_, crate::proofs::WentLemmas::went_then))]
fn drive_stages<
    R: Threads + Wait + Sync,
    S: Source + Send,
    K: Sink + Send,
    P: Plugin + Send,
    G: Gate,
    D: Desk,
    L: LineTexts,
>(
    rt: &R,
    alloc: Global,
    ring: &Ring,
    gate: &G,
    input: &mut [LiveStage<S, K, P>],
    row: &mut [LiveStage<S, K, P>],
    telling: &mut Telling,
    texts: &L,
    desk: &mut D,
)
    requires one { length input.old ≡ 1 }
    requires input { AreReady (seeing S.seen K.seen P.rule P.stands_for P.preallocated) ring.now input.old }
    requires ready { RowReady (seeing S.seen K.seen P.rule P.stands_for P.preallocated) ring.now telling.old.told row.old }
    requires rows { length telling.old.lines.rows.items + 1 ≡ length row.old }
    ensures carried { Carried (seeing S.seen K.seen P.rule P.stands_for P.preallocated) ring.now input.old input.new }
    ensures went { RowWent (seeing S.seen K.seen P.rule P.stands_for P.preallocated) ring.now
        (PrintsLines D.seen (L.text_of texts.now)) (telling.old.printing, desk.old) (telling.new.printing, desk.new)
        telling.old.told telling.new.told row.old row.new }
    ensures rows { length telling.new.lines.rows.items ≡ length telling.old.lines.rows.items }
    ensures input_ended { HaveEnded true input.new }
    ensures ended { HaveEnded true row.new }
{
    let meeting = Meeting::new();
    drive_both(
        rt, &meeting, alloc, ring, gate, input, row, telling, texts, desk,
    );
    drive_here(rt, alloc, ring, gate, input, row, telling, texts, desk);
}

/// Drives all stages of a chain until they have ended, the first of which is the input, and tells their lines meanwhile.
pub(crate) fn drive_all<
    R: Threads + Wait + Sync,
    S: Source + Send,
    K: Sink + Send,
    P: Plugin + Send,
    G: Gate,
    D: Desk,
    L: LineTexts,
>(
    rt: &R,
    alloc: Global,
    ring: &Ring,
    gate: &G,
    stages: &mut [LiveStage<S, K, P>],
    telling: &mut Telling,
    texts: &L,
    desk: &mut D,
)
    requires ready { AllReady (seeing S.seen K.seen P.rule P.stands_for P.preallocated) ring.now telling.old.told stages.old }
    requires rows { length telling.old.lines.rows.items + 2 ≡ length stages.old }
    ensures went { AllWent (seeing S.seen K.seen P.rule P.stands_for P.preallocated) ring.now
        (PrintsLines D.seen (L.text_of texts.now)) (telling.old.printing, desk.old) (telling.new.printing, desk.new)
        telling.old.told telling.new.told stages.old stages.new }
    ensures rows { length telling.new.lines.rows.items ≡ length telling.old.lines.rows.items }
{
    let (input, row) = stages.split_at_mut(1);
    drive_stages(rt, alloc, ring, gate, input, row, telling, texts, desk);
}
