//! Stages that are driven until they have ended, from one thread.
//!
//! `finish` alone owes that all have ended: what a worker promises is the same at any moment, so it may stop where it
//! likes, and the contract of a thread needs no flag.
//!
//! Where one thread drives all stages of a ring, one that worked takes another turn at once: the second one gives on
//! what the first one worked on, so the stage after it finds it in the same round. With one turn a round a batch would
//! need a round for each stage. The second turn of the input begins a read, so what the first one read is handed on,
//! but may be worked on only when that read has come back; a turn that only hands on would mend it. This is so only in
//! a chain whose threads cannot be started.

ghost use Rattle.std.specs.Prelude.{◌≡◌, ◌&&◌, true, length};
ghost use Rattle.stage_run.specs.Seeing.{seeing};
ghost use Rattle.chain_threads.specs.Driving.{IsReady, AreReady, Keeps, Carried, HaveEnded};

use crate::{Stage, Turn};
use plugin_trait::Plugin;
use std::sync::Wait;
use std::sync::atomic::AtomicBool;
use std::sync::atomic::Ordering::SeqCst;
use std::thread::yield_now;
use ts_outside::{Gate, Sink, Source};
use window_ring::Ring;

/// How often a stage retries at once where another one has the turn.
const TRIES: u32 = 10;

/// Serves the only stage of a row. Returns whether it has ended.
fn serve_first<S: Source, K: Sink, P: Plugin, G: Gate>(
    ring: &Ring,
    gate: &G,
    stages: &mut [Stage<S, K, P>],
) -> bool
    requires one { length stages.old ≡ 1 }
    requires ready { AreReady (seeing S.seen K.seen P.rule P.stands_for P.preallocated) ring.now stages.old }
    ensures carried { Carried (seeing S.seen K.seen P.rule P.stands_for P.preallocated) ring.now stages.old stages.new }
    ensures ended { HaveEnded result stages.new }
{
    stages[0].serve(ring, gate).ends()
}

/// Whether both are true.
fn both(one: bool, other: bool) -> bool
    ensures { result ≡ (one && other) }
{
    one && other
}

/// Serves each stage that has not ended, in order. Returns whether all have ended.
#[tactic(auto, using(crate::proofs::Carries::both, crate::proofs::Carries::same, crate::proofs::Carries::over_both))]
fn round<S: Source, K: Sink, P: Plugin, G: Gate>(
    ring: &Ring,
    gate: &G,
    stages: &mut [Stage<S, K, P>],
) -> bool
    requires ready { AreReady (seeing S.seen K.seen P.rule P.stands_for P.preallocated) ring.now stages.old }
    ensures carried { Carried (seeing S.seen K.seen P.rule P.stands_for P.preallocated) ring.now stages.old stages.new }
    ensures ended { HaveEnded result stages.new }
{
    if stages.len() == 0 {
        return true;
    }
    let (first, rest) = stages.split_at_mut(1);
    let first_ended = serve_first(ring, gate, first);
    let rest_ended = round(ring, gate, rest);
    both(first_ended, rest_ended)
}

/// Drives all stages from the caller's thread, in rounds, until all have ended.
///
/// It needs no other thread, and may wait for none; no clause says that it returns.
#[tactic(auto, using(crate::proofs::Carries::same, crate::proofs::Carries::then_, crate::proofs::Carries::still_ready))]
pub fn finish<R: Wait, S: Source, K: Sink, P: Plugin, G: Gate>(
    rt: &R,
    ring: &Ring,
    gate: &G,
    stages: &mut [Stage<S, K, P>],
)
    requires ready { AreReady (seeing S.seen K.seen P.rule P.stands_for P.preallocated) ring.now stages.old }
    ensures carried { Carried (seeing S.seen K.seen P.rule P.stands_for P.preallocated) ring.now stages.old stages.new }
    ensures ended { HaveEnded true stages.new }
{
    for _ in rt.forever() {
        if round(ring, gate, stages) {
            return;
        }
    }
}

/// Drives one stage until it has ended, and sleeps where there is nothing for it to do.
///
/// It needs the other stages to be driven meanwhile.
#[tactic(auto, using(crate::proofs::Carries::kept_same, crate::proofs::Carries::kept_then, crate::proofs::Carries::one_still_ready))]
pub(crate) fn drive<R: Wait, S: Source, K: Sink, P: Plugin, G: Gate>(
    rt: &R,
    ring: &Ring,
    gate: &G,
    stage: &mut Stage<S, K, P>,
)
    requires ready { IsReady (seeing S.seen K.seen P.rule P.stands_for P.preallocated) ring.now stage.old }
    ensures keeps { Keeps (seeing S.seen K.seen P.rule P.stands_for P.preallocated) ring.now stage.old stage.new }
{
    let number = stage.seat.stage();
    let mut tries = 0;
    for _ in rt.forever() {
        // Counted before the visit, so that no ring after it is missed.
        let heard = ring.heard(number);
        match stage.step(ring, gate) {
            Turn::Ended => return,
            Turn::Busy => tries = tried(tries),
            Turn::Idle => ring.wait_news(rt, number, heard),
            Turn::Worked => tries = 0,
        }
    }
}

/// Drives one stage as far as it gets by itself: until it has ended, has nothing to do, or has to stop.
#[tactic(auto, using(crate::proofs::Carries::kept_same, crate::proofs::Carries::kept_then, crate::proofs::Carries::one_still_ready))]
fn go_ahead<S: Source, K: Sink, P: Plugin, G: Gate>(
    ring: &Ring,
    gate: &G,
    stop: &AtomicBool,
    stage: &mut Stage<S, K, P>,
)
    requires ready { IsReady (seeing S.seen K.seen P.rule P.stands_for P.preallocated) ring.now stage.old }
    ensures keeps { Keeps (seeing S.seen K.seen P.rule P.stands_for P.preallocated) ring.now stage.old stage.new }
{
    for _ in 0..u64::MAX {
        if stop.load(SeqCst) {
            return;
        }
        match stage.step(ring, gate) {
            Turn::Ended => return,
            Turn::Idle => return,
            Turn::Busy => {}
            Turn::Worked => {}
        }
    }
}

/// Drives the only stage of a row as far as it gets by itself: until it has ended, has nothing to do, or has to stop.
///
/// It waits for no other stage of the ring, and needs none to be driven meanwhile: an input fills the ring and then returns.
pub fn drive_ahead<S: Source, K: Sink, P: Plugin, G: Gate>(
    ring: &Ring,
    gate: &G,
    stop: &AtomicBool,
    stages: &mut [Stage<S, K, P>],
)
    requires one { length stages.old ≡ 1 }
    requires ready { AreReady (seeing S.seen K.seen P.rule P.stands_for P.preallocated) ring.now stages.old }
    ensures carried { Carried (seeing S.seen K.seen P.rule P.stands_for P.preallocated) ring.now stages.old stages.new }
{
    go_ahead(ring, gate, stop, &mut stages[0]);
}

/// Counts one more try; after so many of them it yields to other threads.
fn tried(tries: u32) -> u32 {
    if tries < TRIES {
        return tries + 1;
    }
    yield_now();
    0
}
