//! The end of a report that was printed while the run went: the summaries of the plugins, then the line for the end.
ghost use Rattle.std.specs.Prelude.{◌≡◌, ◌<◌, ◌+◌, ◌^◌, ◌≤◌, ◌++◌, ◌||◌, ℕ, List, Option, [], length, map, take, true, false, IfOk, OnOk, if◌then◌else◌};
ghost use Rattle.std.specs.List.{AllByRecursion};
ghost use Rattle.std.specs.String.{string_bytes};
ghost use Rattle.ts_packet.specs.declared.cell.Cell.{Cell};
ghost use Rattle.chain_model.specs.Apply.{StageList};
ghost use Rattle.chain_model.specs.PluginRule.{PluginRule};
ghost use Rattle.chain_model.specs.Reports.{end_line, rules_of};
ghost use Rattle.packet_forms.specs.declared.forms.Form.{Form};
ghost use Rattle.search_source.specs.declared.gap.Gap.{Gap};
ghost use Rattle.chain_run.specs.Met.{AllMetTo};
ghost use Rattle.plugin_trait.specs.Marks.{AllowsMark};
ghost use Rattle.ts_outside.specs.Desk.{DeskView};
ghost use Rattle.tsp_top.specs.ByPlugin.{by_plugin};
ghost use Rattle.tsp_top.specs.Faults.{faults_from};
ghost use Rattle.tsp_top.specs.InputRounds.{ExtendsTold, KnowsEnd, rest_faulty, rest_printed};
ghost use Rattle.tsp_top.specs.LeftOut.{LeftOut, input_faulty, is_below};
ghost use Rattle.tsp_top.specs.LiveEnds.{PrintedTo, plugin_stands};
ghost use Rattle.chain_args.specs.ValidPlan.{IsValidGeneral};
ghost use Rattle.tsp_top.specs.PlannedChain.{named_rules, stuffing_of};
ghost use Rattle.tsp_top.specs.Printed.{reported_as, summaries_printed, told_lines};
ghost use Rattle.tsp_top.specs.Ran.{chain_over};
ghost use Rattle.tsp_top.specs.Reported.{ReachesCut, ReportsAsked};

use crate::call_notes::PluginNotes;
use crate::input_report::push_input_rest;
use crate::live_run::Printed;
use crate::report::{Judged, last_text, one_failed};
use crate::reporting::{either, push_lines};
use crate::saying::say_on;
use crate::status::{Status, status_of_run};
use chain_args::{GeneralConf, Plan};
use chain_core::Closed;
use plugin_settings::PluginItem;
use plugin_trait::{Heard, Line, Plugin};
use search_source::{GapCounts, KeptGaps};
use std::alloc::{AllocError, Global};
use ts_outside::Desk;

/// Tells the plugin that its run is cut at `cut`, and returns whether it has a fault in the cells before that.
fn judge_told<P: Plugin>(heard: &mut Heard<P>, cut: u64) -> Result<bool, AllocError>
    requires { AllowsMark (plugin_stands P.stands_for heard.old) cut }
    ensures same_rule { P.rule heard.new.plugin ≡ P.rule heard.old.plugin }
    ensures allows { OnOk result (AllowsMark (plugin_stands P.stands_for heard.new) cut) }
    ensures stands { (history : List Cell) (mark : ℕ) → plugin_stands P.stands_for heard.old history mark
        → mark ≤ cut → cut ≤ length history
        → OnOk result (plugin_stands P.stands_for heard.new history cut) }
    ensures judged { (history : List Cell) (mark : ℕ) → plugin_stands P.stands_for heard.old history mark
        → mark ≤ cut → cut ≤ length history
        → IfOk result (λ faulty. faulty ≡ (P.rule heard.old.plugin).has_fault (take cut history)) }
{
    heard.plugin.note(cut, &mut heard.lines)?;
    Ok(heard.plugin.has_fault(cut))
}

/// The summary of a plugin that was told the cut of its run.
fn summary_lines<P: Plugin>(
    alloc: Global,
    heard: &Heard<P>,
    cut: u64,
) -> Result<Vec<Line>, AllocError>
    requires { AllowsMark (plugin_stands P.stands_for heard.now) cut }
    ensures { (history : List Cell) → plugin_stands P.stands_for heard.now history cut
        → IfOk result (λ lines. map (λ line. line.text) lines.items ≡ (P.rule heard.now.plugin).summary_of (take cut history)) }
{
    let mut lines = Vec::new(alloc);
    heard.plugin.summary(cut, &mut lines)?;
    Ok(lines)
}

/// Appends to the text the summaries of the plugins over the first `cut` cells, in bare lines or not, and returns whether one of
/// them has a fault there. The first of them comes after stage `j`.
fn push_summaries<P: Plugin>(
    alloc: Global,
    text: &mut String,
    bare: bool,
    plugins: &mut [Heard<P>],
    items: &[PluginItem],
    j: usize,
    cut: u64,
) -> Result<bool, AllocError>
    requires numbers { j + length plugins.old < 2 ^ 63 }
    requires reach { ReachesCut (plugin_stands P.stands_for) plugins.old cut j }
    ensures faults { (tables : List (List (List ℕ))) (rules : List PluginRule) (input : StageList)
        → map (by_plugin P.rule) plugins.old ≡ rules_of (named_rules items.now tables)
        → AllMetTo (plugin_stands P.stands_for) rules input cut j plugins.old
        → IfOk result (λ faulty. faulty ≡ faults_from rules input cut j (named_rules items.now tables)) }
    ensures said { (tables : List (List (List ℕ))) (rules : List PluginRule) (input : StageList)
        → map (by_plugin P.rule) plugins.old ≡ rules_of (named_rules items.now tables)
        → AllMetTo (plugin_stands P.stands_for) rules input cut j plugins.old
        → OnOk result (string_bytes text.new
        ≡ string_bytes text.old ++ summaries_printed bare rules input cut j (named_rules items.now tables)) }
{
    let Some((first, rest)) = plugins.split_first_mut() else {
        return Ok(false);
    };
    let Some((item, later)) = items.split_first() else {
        return Ok(false);
    };
    let first_faulty = judge_told(first, cut)?;
    let lines = summary_lines(alloc, first, cut)?;
    push_lines(text, bare, j + 1, item.conf.name(), &lines)?;
    let later_faulty = push_summaries(alloc, text, bare, rest, later, j + 1, cut)?;
    Ok(either(first_faulty, later_faulty))
}

/// What is reported after the lines of a run: what is left of the input's report, the summaries of the plugins, then the end line, unless the report is to be bare; and
/// whether a plugin has a fault before the cut.
fn last_part<P: Plugin>(
    alloc: Global,
    general: &GeneralConf,
    kept: &Option<KeptGaps>,
    plugins: &mut [Heard<P>],
    items: &[PluginItem],
    counts: GapCounts,
    closed: Closed,
) -> Result<Judged, AllocError>
    requires valid { IsValidGeneral general.now }
    requires numbers { length plugins.old < 2 ^ 62 }
    requires reach { ReachesCut (plugin_stands P.stands_for) plugins.old closed.cut 0 }
    ensures { (tables : List (List (List ℕ))) (rules : List PluginRule) (input : StageList)
        → map (by_plugin P.rule) plugins.old ≡ rules_of (named_rules items.now tables)
        → AllMetTo (plugin_stands P.stands_for) rules input closed.cut 0 plugins.old
        → IfOk result (λ judged.
        (judged.faulty ≡ (rest_faulty counts kept.now closed.cause
        || faults_from rules input closed.cut 0 (named_rules items.now tables)))
        × (string_bytes judged.text ≡ rest_printed general.now.bare counts kept.now closed.cause
        ++ (summaries_printed general.now.bare rules input closed.cut 0 (named_rules items.now tables)
        ++ (if general.now.bare then [] else end_line closed.cause closed.cut)))
        × KnowsEnd kept.now closed.cause) }
{
    let mut text = String::new(alloc);
    let bare = general.bare;
    let input_faulty = push_input_rest(alloc, &mut text, bare, kept, counts, closed)?;
    let plugin_faulty = push_summaries(alloc, &mut text, bare, plugins, items, 0, closed.cut)?;
    let faulty = either(input_faulty, plugin_faulty);
    let last = last_text(alloc, bare, closed)?;
    text.push_str(last.as_str())?;
    Ok(Judged { text, faulty })
}

/// Reports what is left of a run whose lines were printed while it went, and returns its status. Where memory ran out for the
/// lines, nothing more is printed. Where the report is bare and did not fail, its end is noted, to be told elsewhere.
pub(crate) fn report_live<P: Plugin, D: Desk>(
    alloc: Global,
    desk: &mut D,
    plan: &Plan,
    kept: &Option<KeptGaps>,
    plugins: &mut [Heard<P>],
    closed: Closed,
    closing_failed: bool,
    printed: Printed,
    notes: &mut PluginNotes,
) -> Status
    requires live { plan.now.general.live ≡ true }
    requires valid { IsValidGeneral plan.now.general }
    requires numbers { length plugins.old < 2 ^ 62 }
    requires reach { ReachesCut (plugin_stands P.stands_for) plugins.old closed.cut 0 }
    ensures { (tables : List (List (List ℕ))) (input : StageList) (first : DeskView) (form : Form) (gaps : List Gap) (at : ℕ)
        (left_out : Option LeftOut)
        → let general = plan.now.general in
        let chain = chain_over plan.now tables input in
        map (by_plugin P.rule) plugins.old ≡ rules_of (named_rules plan.now.plugins tables)
        → AllMetTo (plugin_stands P.stands_for) (map (by_plugin P.rule) plugins.old) input closed.cut 0 plugins.old
        → AllByRecursion (λ (gap : Gap). is_below (stuffing_of general) at gap.before ≡ true) gaps
        → ExtendsTold (stuffing_of general) form gaps at kept.now closed.cause left_out
        → PrintedTo general chain closed.cut form gaps at first (D.seen desk.old) printed.failed printed.whole printed.counts
        → ReportsAsked general (reported_as general left_out chain closed.cut closed.cause) (told_lines general left_out chain closed.cut)
        (input_faulty (stuffing_of general) left_out closed.cut closed.cause
        || faults_from (rules_of (named_rules plan.now.plugins tables)) input closed.cut 0 (named_rules plan.now.plugins tables))
        (KnowsEnd kept.now closed.cause) closed.cause closing_failed first (D.seen desk.new) result }
{
    if !printed.whole {
        return Status::NoMemory;
    }
    let items = plan.plugins.as_slice();
    match last_part(
        alloc,
        &plan.general,
        kept,
        plugins,
        items,
        printed.counts,
        closed,
    ) {
        Ok(Judged { text, faulty }) => {
            let mut failed = printed.failed;
            say_on(desk, &mut failed, text.as_str());
            notes.note_end(plan.general.bare, failed, closed);
            let late = one_failed(closing_failed, failed);
            status_of_run(&plan.general, faulty, closed.cause, late)
        }
        Err(AllocError) => Status::NoMemory,
    }
}
