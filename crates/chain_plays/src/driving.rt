//! The stages of two rings, driven at once.
ghost use Rattle.std.specs.Prelude.{◌≡◌, true, length};
ghost use Rattle.std.specs.Thread.{IsSync};
ghost use Rattle.stage_run.specs.Seeing.{seeing};
ghost use Rattle.chain_threads.specs.Driving.{AreReady, Carried, HaveEnded};
ghost use Rattle.chain_plays.specs.Sides.{AreReadyAt, WentAt};

use crate::at_once::on_both;
use chain_threads::{Stage, drive_ahead, drive_all};
use plugin_trait::Plugin;
use std::marker::{Send, Sync};
use std::sync::Wait;
use std::sync::atomic::AtomicBool;
use std::sync::atomic::Ordering::SeqCst;
use std::thread::Threads;
use ts_outside::{Gate, Sink, Source};
use window_ring::Ring;

/// Drives the one stage of the next ring as far as it gets; or else those of the present ring until all have ended; then it
/// sets the flag at which the other side stops.
fn drive_side<
    R: Threads + Wait + Sync,
    S: Source + Send,
    K: Sink + Send,
    P: Plugin + Send,
    G: Gate,
>(
    rt: &R,
    gate: &G,
    over: &AtomicBool,
    ring: &Ring,
    next_ring: &Ring,
    side: usize,
    stages: &mut [Stage<S, K, P>],
)
    requires { AreReadyAt (seeing S.seen K.seen P.rule P.stands_for P.preallocated) ring.now next_ring.now side stages.old }
    ensures { WentAt (seeing S.seen K.seen P.rule P.stands_for P.preallocated) ring.now next_ring.now side
        stages.old stages.new }
{
    if side == 0 {
        drive_ahead(next_ring, gate, over, stages);
        return;
    }
    drive_all(rt, ring, gate, stages);
    over.store(true, SeqCst);
}

/// Drives both sides at once.
fn drive_both<
    R: Threads + Wait + Sync,
    S: Source + Send,
    K: Sink + Send,
    P: Plugin + Send,
    G: Gate,
>(
    rt: &R,
    gate: &G,
    over: &AtomicBool,
    ring: &Ring,
    stages: &mut [Stage<S, K, P>],
    next_ring: &Ring,
    next_stages: &mut [Stage<S, K, P>],
)
    requires ready { AreReady (seeing S.seen K.seen P.rule P.stands_for P.preallocated) ring.now stages.old }
    requires one { length next_stages.old ≡ 1 }
    requires next { AreReady (seeing S.seen K.seen P.rule P.stands_for P.preallocated) next_ring.now next_stages.old }
    ensures carried { Carried (seeing S.seen K.seen P.rule P.stands_for P.preallocated) ring.now stages.old stages.new }
    ensures ended { HaveEnded true stages.new }
    ensures next { Carried (seeing S.seen K.seen P.rule P.stands_for P.preallocated) next_ring.now
        next_stages.old next_stages.new }
{
    on_both(
        rt,
        &|side: usize, stages: &mut [Stage<S, K, P>]|
            requires { IsSync R.row × IsSync G.row
                × AreReadyAt (seeing S.seen K.seen P.rule P.stands_for P.preallocated) ring.now next_ring.now side stages.now }
            ensures { WentAt (seeing S.seen K.seen P.rule P.stands_for P.preallocated) ring.entry.now next_ring.entry.now
                side stages.entry.now stages.exit.now }
        { drive_side(rt, gate, over, ring, next_ring, side, stages) },
        next_stages,
        stages,
    );
}

/// Drives the stages of a ring until all have ended, and meanwhile the only one of the next ring as far as it gets.
///
/// Where no thread can be started for the latter, it is driven when the others have ended, and finds that it is to stop.
pub(crate) fn drive_beside<
    R: Threads + Wait + Sync,
    S: Source + Send,
    K: Sink + Send,
    P: Plugin + Send,
    G: Gate,
>(
    rt: &R,
    gate: &G,
    ring: &Ring,
    stages: &mut [Stage<S, K, P>],
    next_ring: &Ring,
    next_stages: &mut [Stage<S, K, P>],
)
    requires ready { AreReady (seeing S.seen K.seen P.rule P.stands_for P.preallocated) ring.now stages.old }
    requires one { length next_stages.old ≡ 1 }
    requires next { AreReady (seeing S.seen K.seen P.rule P.stands_for P.preallocated) next_ring.now next_stages.old }
    ensures carried { Carried (seeing S.seen K.seen P.rule P.stands_for P.preallocated) ring.now stages.old stages.new }
    ensures ended { HaveEnded true stages.new }
    ensures next { Carried (seeing S.seen K.seen P.rule P.stands_for P.preallocated) next_ring.now
        next_stages.old next_stages.new }
{
    let over = AtomicBool::new(false);
    drive_both(rt, gate, &over, ring, stages, next_ring, next_stages);
}
