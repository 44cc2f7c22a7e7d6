//! The run in threads.
ghost use Rattle.std.specs.Prelude.{◌≡◌, ◌≤◌, vec_len};
ghost use Rattle.chain_core.specs.CoreNumbers.{IsValidPlan};
ghost use Rattle.plugin_trait.specs.HeardStands.{HeardStands};
ghost use Rattle.chain_run.specs.Fresh.{AreFresh};
ghost use Rattle.stage_run.specs.Parts.{IsUnused};
ghost use Rattle.stage_run.specs.Seeing.{seeing};
ghost use Rattle.tsp_top.specs.Ran.{EndsRun};

use chain_core::CorePlan;
use chain_run::{RunEnd, Stages};
use chain_threads::run_threads;
use plugin_trait::Plugin;
use std::alloc::Global;
use std::marker::{Send, Sync};
use std::sync::Wait;
use std::thread::Threads;
use ts_outside::{Gate, Sink, Source};

/// Runs a chain with a thread for each stage, and returns its parts.
///
/// `closed` is `AllocError` where memory ran out for the run; then nothing was done. It may wait; no clause
/// says that it returns.
pub(crate) fn run_in_threads<R, S, K, P, G>(
    rt: &R,
    alloc: Global,
    stages: Stages<S, K, P>,
    core: &CorePlan,
    gate: &G,
) -> RunEnd<S, K, P>
where
    R: Threads + Wait + Sync,
    S: Source + Send,
    K: Sink + Send,
    P: Plugin + Send,
    G: Gate,
    requires every { 1 ≤ stages.stuffing.every }
    requires unused { IsUnused stages.input }
    requires valid { IsValidPlan core.now }
    requires plugins { core.now.plugins ≡ vec_len stages.plugins }
    requires fresh { AreFresh (HeardStands P.rule P.stands_for) stages.plugins.items }
    ensures { EndsRun (seeing S.seen K.seen P.rule P.stands_for P.preallocated) (HeardStands P.rule P.stands_for)
        stages.stuffing core.now stages.input result.input
        stages.plugins.items result.plugins.items stages.output result.output result.closed }
{
    run_threads(rt, alloc, stages, core, gate)
}
