//! The run of a plan whose lines are printed while it goes.
ghost use Rattle.std.specs.Prelude.{◌≡◌, ◌≤◌, ◌&&◌, not, vec_len};
ghost use Rattle.chain_core.specs.CoreNumbers.{IsValidPlan};
ghost use Rattle.plugin_trait.specs.HeardStands.{HeardStands};
ghost use Rattle.chain_run.specs.Fresh.{AreFresh};
ghost use Rattle.stage_run.specs.InputStands as stage;
ghost use Rattle.stage_run.specs.Parts.{IsUnused};
ghost use Rattle.stage_run.specs.Seeing.{seeing};
ghost use Rattle.tsp_top.specs.InputRounds.{IsPlaced};
ghost use Rattle.tsp_top.specs.LiveEnds.{EndsLive};
ghost use Rattle.tsp_top.specs.PlannedChain.{stuffing_of};

use crate::input_texts::InputTexts;
use crate::one_thread::MOST_AT_A_TIME;
use crate::opening::PacketSource;
use crate::told_texts::PluginTexts;
use chain_args::Plan;
use chain_core::CorePlan;
use chain_live_threads::run_apart;
use chain_run::{RunEnd, Stages};
use chain_tells::{LiveEnd, printing_well, run_telling};
use plugin_trait::Plugin;
use search_source::{GapCounts, gaps_noted_so_far};
use std::alloc::Global;
use std::marker::{Send, Sync};
use std::sync::Wait;
use std::thread::Threads;
use ts_outside::{Desk, Gate, Sink, Source};

/// What was printed of a run while it went.
#[derive(Clone, Copy)]
pub(crate) struct Printed {
    /// Whether a report failed.
    pub(crate) failed: bool,
    /// Whether there was memory for all lines of the run.
    pub(crate) whole: bool,
    /// The gaps of the input that were told.
    pub(crate) counts: GapCounts,
}

/// What a run comes to whose lines were printed while it went.
pub(crate) struct PrintedRun<S, K, P> {
    pub(crate) end: RunEnd<S, K, P>,
    pub(crate) printed: Printed,
}

/// Runs the chain of a plan, its stages in turn in the caller's thread, and returns its parts. After each round the lines of the
/// packets that were written are printed at the desk, in the order of their positions and at one position in that of the plugins,
/// those of the input in front.
///
/// `closed` is `AllocError` where memory ran out for the run; then nothing was done.
pub(crate) fn run_printing<S: Source, K: Sink, P: Plugin, D: Desk, G: Gate>(
    alloc: Global,
    stages: Stages<PacketSource<S>, K, P>,
    core: &CorePlan,
    gate: &G,
    plan: &Plan,
    desk: &mut D,
) -> PrintedRun<PacketSource<S>, K, P>
    requires every { 1 ≤ stages.stuffing.every }
    requires stuffing { stage.stuffing_of stages.stuffing ≡ stuffing_of plan.now.general }
    requires unused { IsUnused stages.input }
    requires valid { IsValidPlan core.now }
    requires plugins { core.now.plugins ≡ vec_len stages.plugins }
    requires fresh { AreFresh (HeardStands P.rule P.stands_for) stages.plugins.items }
    ensures { EndsLive (seeing ⟦<PacketSource<S> as Source>⟧.seen K.seen P.rule P.stands_for P.preallocated)
        plan.now stages.stuffing core.now stages.input result.end.input
        stages.plugins.items result.end.plugins.items stages.output result.end.output
        (D.seen desk.old) (D.seen desk.new) result.printed.failed result.printed.whole result.printed.counts result.end.closed }
{
    // It runs nothing: the proof cites it.
    gaps_noted_so_far::<S>();
    let sizes = [core.most.min(MOST_AT_A_TIME) as u32];
    let mut texts = InputTexts {
        bare: plan.general.bare,
        stuffing: stages.stuffing,
        items: plan.plugins.as_slice(),
        counts: GapCounts::none(),
    };
    let mut printing = printing_well();
    let LiveEnd { end, all_told } = run_telling(
        alloc,
        stages,
        core,
        &sizes,
        gate,
        &mut texts,
        &mut printing,
        desk,
    );
    let whole = is_whole(all_told, printing.wants);
    PrintedRun {
        end,
        printed: Printed {
            failed: printing.failed,
            whole,
            counts: texts.counts,
        },
    }
}

/// Runs the chain of a plan, its input in a thread of its own and its other stages in turn in the caller's, and returns its parts.
/// The lines are printed as in one thread. The input has none of its own: its packets are not found again.
///
/// `closed` is `AllocError` where memory ran out for the run; then nothing was done. It may wait; no clause says that it returns.
pub(crate) fn run_printing_apart<R, S, K, P, D, G>(
    rt: &R,
    alloc: Global,
    stages: Stages<S, K, P>,
    core: &CorePlan,
    gate: &G,
    plan: &Plan,
    desk: &mut D,
) -> PrintedRun<S, K, P>
where
    R: Threads + Wait + Sync,
    S: Source + Send,
    K: Sink + Send,
    P: Plugin + Send,
    D: Desk,
    G: Gate,
    requires every { 1 ≤ stages.stuffing.every }
    requires unused { IsUnused stages.input }
    requires placed { IsPlaced S.seen stages.input }
    requires valid { IsValidPlan core.now }
    requires plugins { core.now.plugins ≡ vec_len stages.plugins }
    requires fresh { AreFresh (HeardStands P.rule P.stands_for) stages.plugins.items }
    ensures { EndsLive (seeing S.seen K.seen P.rule P.stands_for P.preallocated)
        plan.now stages.stuffing core.now stages.input result.end.input
        stages.plugins.items result.end.plugins.items stages.output result.end.output
        (D.seen desk.old) (D.seen desk.new) result.printed.failed result.printed.whole result.printed.counts result.end.closed }
{
    let sizes = [core.most.min(MOST_AT_A_TIME) as u32];
    let bare = plan.general.bare;
    let texts = PluginTexts {
        bare,
        items: plan.plugins.as_slice(),
    };
    let mut printing = printing_well();
    let LiveEnd { end, all_told } = run_apart(
        rt,
        alloc,
        stages,
        core,
        &sizes,
        gate,
        &texts,
        &mut printing,
        desk,
    );
    let whole = is_whole(all_told, printing.wants);
    PrintedRun {
        end,
        printed: Printed {
            failed: printing.failed,
            whole,
            counts: GapCounts::none(),
        },
    }
}

/// Whether all lines were told, and there was memory for their texts.
fn is_whole(all_told: bool, wants: bool) -> bool
    ensures { result ≡ (all_told && not wants) }
{
    all_told && !wants
}
