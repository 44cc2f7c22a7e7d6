//! The end of a call: after its run both ends are closed, and the run is reported.
ghost use Rattle.std.specs.Prelude.{◌≡◌, ◌≤◌, ℕ, List, length, map, false, true, IfOk};
ghost use Rattle.chain_model.specs.Reports.{rules_of};
ghost use Rattle.chain_args.specs.ValidPlan.{IsValidGeneral};
ghost use Rattle.chain_core.specs.declared.core_plan.CorePlan.{CorePlan};
ghost use Rattle.plugin_trait.specs.HeardStands.{HeardStands};
ghost use Rattle.plugin_trait.specs.declared.heard.Heard.{Heard};
ghost use Rattle.stage_run.specs.Seeing.{seeing};
ghost use Rattle.stage_run.specs.declared.stuffing.Stuffing.{Stuffing};
ghost use Rattle.search_source.specs.FileView.{of_either};
ghost use Rattle.ts_outside.specs.Desk.{DeskView};
ghost use Rattle.tsp_top.specs.ByPlugin.{by_plugin};
ghost use Rattle.tsp_top.specs.PlannedChain.{named_rules};
ghost use Rattle.tsp_top.specs.LiveEnds.{EndsLive, plugin_stands};
ghost use Rattle.tsp_top.specs.Ran.{EndsRun, RanOpened};
ghost use Rattle.tsp_top.specs.Reported.{ReachesCut};

use crate::call_notes::PluginNotes;
use crate::live_report::report_live;
use crate::live_run::PrintedRun;
use crate::opening::{PacketSource, close_input, close_output};
use crate::report::report_run;
use crate::status::Status;
use chain_args::Plan;
use chain_run::RunEnd;
use plugin_set::SeesTables;
use plugin_trait::Plugin;
use stage_run::{InputPart, OutputPart};
use std::alloc::{AllocError, Global};
use ts_outside::{Desk, Source};

/// Closes both ends of a run, and reports it. Where that is asked, it is noted which tables changed without a new version.
pub(crate) fn finish<P: Plugin + SeesTables + Drop, D: Desk>(
    alloc: Global,
    desk: &mut D,
    plan: &Plan,
    end: RunEnd<PacketSource<D::In>, D::Out, P>,
    notes: &mut PluginNotes,
) -> Status
    requires plain { plan.now.general.live ≡ false }
    requires valid { IsValidGeneral plan.now.general }
    requires few { length end.plugins.items ≤ 62 }
    requires reach { IfOk end.closed (λ closed. ReachesCut (HeardStands P.rule P.stands_for) end.plugins.items closed.cut 0) }
    ensures { (tables : List (List (List ℕ))) (stuffing : Stuffing) (numbers : CorePlan) (from : InputPart _)
        (plugins : List (Heard P)) (to : OutputPart D.Out)
        → map (by_plugin P.rule) end.plugins.items ≡ rules_of (named_rules plan.now.plugins tables)
        → EndsRun (seeing ⟦<PacketSource<D::In> as Source>⟧.seen D.Out.seen P.rule P.stands_for P.preallocated)
        (HeardStands P.rule P.stands_for) stuffing numbers from end.input plugins end.plugins.items to end.output end.closed
        → RanOpened (seeing ⟦<PacketSource<D::In> as Source>⟧.seen D.Out.seen P.rule P.stands_for P.preallocated)
        (HeardStands P.rule P.stands_for) (of_either (λ placed. D.In.seen placed.source) (λ found. D.In.seen found.source.source))
        plan.now tables stuffing numbers (D.seen desk.old) (D.seen desk.new) from plugins to result }
{
    let RunEnd {
        input,
        mut plugins,
        output,
        closed,
    } = end;
    let kept = close_input(desk, input);
    let closing = close_output(desk, output);
    match closed {
        Ok(closed) => {
            let status = report_run(
                alloc,
                desk,
                &plan.general,
                &kept,
                &mut plugins,
                plan.plugins.as_slice(),
                closed,
                closing.is_err(),
                notes,
            );
            notes.note_changes(&plugins, closed.cut);
            status
        }
        Err(AllocError) => Status::NoMemory,
    }
}

/// The same of a run whose lines were printed while it went: the rest of its report is printed.
pub(crate) fn finish_live<P: Plugin + SeesTables + Drop, D: Desk>(
    alloc: Global,
    desk: &mut D,
    plan: &Plan,
    run: PrintedRun<PacketSource<D::In>, D::Out, P>,
    notes: &mut PluginNotes,
) -> Status
    requires live { plan.now.general.live ≡ true }
    requires valid { IsValidGeneral plan.now.general }
    requires few { length run.end.plugins.items ≤ 62 }
    requires reach { IfOk run.end.closed (λ closed. ReachesCut (plugin_stands P.stands_for) run.end.plugins.items closed.cut 0) }
    ensures { (tables : List (List (List ℕ))) (stuffing : Stuffing) (numbers : CorePlan) (from : InputPart _)
        (plugins : List (Heard P)) (to : OutputPart D.Out) (opened : DeskView)
        → map (by_plugin P.rule) plugins ≡ rules_of (named_rules plan.now.plugins tables)
        → map (by_plugin P.rule) run.end.plugins.items ≡ rules_of (named_rules plan.now.plugins tables)
        → EndsLive (seeing ⟦<PacketSource<D::In> as Source>⟧.seen D.Out.seen P.rule P.stands_for P.preallocated)
        plan.now stuffing numbers from run.end.input plugins run.end.plugins.items to run.end.output
        opened (D.seen desk.old) run.printed.failed run.printed.whole run.printed.counts run.end.closed
        → RanOpened (seeing ⟦<PacketSource<D::In> as Source>⟧.seen D.Out.seen P.rule P.stands_for P.preallocated)
        (plugin_stands P.stands_for) (of_either (λ placed. D.In.seen placed.source) (λ found. D.In.seen found.source.source))
        plan.now tables stuffing numbers opened (D.seen desk.new) from plugins to result }
{
    let PrintedRun { end, printed } = run;
    let RunEnd {
        input,
        mut plugins,
        output,
        closed,
    } = end;
    let kept = close_input(desk, input);
    let closing = close_output(desk, output);
    match closed {
        Ok(closed) => {
            let status = report_live(
                alloc,
                desk,
                plan,
                &kept,
                &mut plugins,
                closed,
                closing.is_err(),
                printed,
                notes,
            );
            notes.note_changes(&plugins, closed.cut);
            status
        }
        Err(AllocError) => Status::NoMemory,
    }
}
