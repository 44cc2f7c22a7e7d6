//! Stages that are driven each in a thread of its own.

ghost use Rattle.std.specs.Prelude.{◌≡◌, ◌<◌, true, length};
ghost use Rattle.std.specs.Thread.{IsSync};
ghost use Rattle.stage_run.specs.Seeing.{seeing};
ghost use Rattle.chain_threads.specs.Driving.{IsReady, Keeps, AreReady, Carried, HaveEnded};

use crate::Stage;
use crate::driving::{drive, finish};
use crate::start_line::StartLine;
use crate::starting::can_start;
use plugin_trait::Plugin;
use std::marker::{Send, Sync};
use std::sync::Wait;
use std::thread::{Threads, for_each_mut};
use ts_outside::{Gate, Sink, Source};
use window_ring::Ring;

/// How long the threads of the stages wait for one another at first, in milliseconds. It is twice as long each time after
/// that.
const FIRST_PATIENCE: u64 = 50;

/// Drives a stage until it has ended, once the threads of all are at the line. Where the wait was given up, it stays as it
/// is.
#[tactic(auto, using(crate::proofs::Carries::kept_same))]
fn drive_from<R: Wait, S: Source, K: Sink, P: Plugin, G: Gate>(
    rt: &R,
    ring: &Ring,
    gate: &G,
    line: &StartLine,
    stage: &mut Stage<S, K, P>,
)
    requires ready { IsReady (seeing S.seen K.seen P.rule P.stands_for P.preallocated) ring.now stage.old }
    ensures keeps { Keeps (seeing S.seen K.seen P.rule P.stands_for P.preallocated) ring.now stage.old stage.new }
{
    if line.all_here(rt) {
        drive(rt, ring, gate, stage);
    }
}

/// Drives the stages from a line, each in a thread of its own where one can be started.
fn spread<R: Threads + Wait + Sync, S: Source + Send, K: Sink + Send, P: Plugin + Send, G: Gate>(
    rt: &R,
    ring: &Ring,
    gate: &G,
    line: &StartLine,
    stages: &mut [Stage<S, K, P>],
)
    requires ready { AreReady (seeing S.seen K.seen P.rule P.stands_for P.preallocated) ring.now stages.old }
    ensures carried { Carried (seeing S.seen K.seen P.rule P.stands_for P.preallocated) ring.now stages.old stages.new }
{
    let threads = stages.len();
    if threads == 0 {
        return;
    }
    for_each_mut(
        rt,
        stages,
        threads,
        &|_: usize, stage: &mut Stage<S, K, P>|
            requires { IsSync G.row × IsReady (seeing S.seen K.seen P.rule P.stands_for P.preallocated) ring.now stage.now }
            ensures { Keeps (seeing S.seen K.seen P.rule P.stands_for P.preallocated) ring.entry.now stage.entry.now stage.exit.now }
        { drive_from(rt, ring, gate, line, stage) },
    );
}

/// Drives the stages, each in a thread of its own, where all of these threads have come before the patience is over. Returns
/// whether they have. Where not, the stages stay as they are, and each thread that was started has ended.
fn try_threads<
    R: Threads + Wait + Sync,
    S: Source + Send,
    K: Sink + Send,
    P: Plugin + Send,
    G: Gate,
>(rt: &R, ring: &Ring, gate: &G, patience: u64, stages: &mut [Stage<S, K, P>]) -> bool
    requires ready { AreReady (seeing S.seen K.seen P.rule P.stands_for P.preallocated) ring.now stages.old }
    ensures carried { Carried (seeing S.seen K.seen P.rule P.stands_for P.preallocated) ring.now stages.old stages.new }
{
    let line = StartLine::new(stages.len(), patience);
    spread(rt, ring, gate, &line, stages);
    line.has_met()
}

/// Drives the stages, each in a thread of its own, until they have ended. Where so many threads cannot be started, they stay
/// as they are.
///
/// Threads that come late are waited for, twice as long each time. Only after a wait that was too short it tries whether so
/// many can be started at all.
#[tactic(auto, using(crate::proofs::Carries::same, crate::proofs::Carries::then_, crate::proofs::Carries::still_ready))]
fn drive_apart<
    R: Threads + Wait + Sync,
    S: Source + Send,
    K: Sink + Send,
    P: Plugin + Send,
    G: Gate,
>(rt: &R, ring: &Ring, gate: &G, stages: &mut [Stage<S, K, P>])
    requires ready { AreReady (seeing S.seen K.seen P.rule P.stands_for P.preallocated) ring.now stages.old }
    ensures carried { Carried (seeing S.seen K.seen P.rule P.stands_for P.preallocated) ring.now stages.old stages.new }
{
    let mut patience = FIRST_PATIENCE;
    for _ in rt.forever() {
        if try_threads(rt, ring, gate, patience, stages) {
            return;
        }
        if !can_start(rt, stages.len().saturating_sub(1)) {
            return;
        }
        patience = patience.saturating_mul(2);
    }
}

/// Drives all stages of a ring until they have ended, each in a thread of its own, the caller's among them; where so many
/// threads cannot be started, all of them from the caller's.
///
/// It may wait; no clause says that it returns.
#[tactic(auto, using(crate::proofs::Carries::then_, crate::proofs::Carries::still_ready))]
pub fn drive_all<
    R: Threads + Wait + Sync,
    S: Source + Send,
    K: Sink + Send,
    P: Plugin + Send,
    G: Gate,
>(rt: &R, ring: &Ring, gate: &G, stages: &mut [Stage<S, K, P>])
    requires ready { AreReady (seeing S.seen K.seen P.rule P.stands_for P.preallocated) ring.now stages.old }
    ensures carried { Carried (seeing S.seen K.seen P.rule P.stands_for P.preallocated) ring.now stages.old stages.new }
    ensures ended { HaveEnded true stages.new }
{
    drive_apart(rt, ring, gate, stages);
    finish(rt, ring, gate, stages);
}
