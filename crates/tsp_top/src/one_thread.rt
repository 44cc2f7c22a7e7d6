//! The run in one thread.
ghost use Rattle.std.specs.Prelude.{◌≡◌, ◌≤◌, vec_len};
ghost use Rattle.chain_core.specs.CoreNumbers.{IsValidPlan};
ghost use Rattle.plugin_trait.specs.HeardStands.{HeardStands};
ghost use Rattle.chain_run.specs.Fresh.{AreFresh};
ghost use Rattle.stage_run.specs.Parts.{IsUnused};
ghost use Rattle.stage_run.specs.Seeing.{seeing};
ghost use Rattle.tsp_top.specs.Ran.{EndsRun};

use chain_core::CorePlan;
use chain_run::{RunEnd, Stages, run_serial};
use plugin_trait::Plugin;
use std::alloc::Global;
use ts_outside::{Gate, Sink, Source};

/// A stage takes no more packets at a time than this, however many the options allow: so many stay in the processor's
/// cache from the input to the output, and each read or write still moves up to 188 KiB.
pub(crate) const MOST_AT_A_TIME: usize = 1024;

/// Runs a chain, its stages in turn in the caller's thread, and returns its parts.
///
/// `closed` is `AllocError` where memory ran out for the run; then nothing was done.
pub(crate) fn run_in_one_thread<S: Source, K: Sink, P: Plugin, G: Gate>(
    alloc: Global,
    stages: Stages<S, K, P>,
    core: &CorePlan,
    gate: &G,
) -> RunEnd<S, K, P>
    requires every { 1 ≤ stages.stuffing.every }
    requires unused { IsUnused stages.input }
    requires valid { IsValidPlan core.now }
    requires plugins { core.now.plugins ≡ vec_len stages.plugins }
    requires fresh { AreFresh (HeardStands P.rule P.stands_for) stages.plugins.items }
    ensures { EndsRun (seeing S.seen K.seen P.rule P.stands_for P.preallocated) (HeardStands P.rule P.stands_for)
        stages.stuffing core.now stages.input result.input
        stages.plugins.items result.plugins.items stages.output result.output result.closed }
{
    let sizes = [core.most.min(MOST_AT_A_TIME) as u32];
    run_serial(alloc, stages, core, &sizes, gate)
}
