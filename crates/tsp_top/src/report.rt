//! The report of a run that was closed, and its status.
ghost use Rattle.std.specs.Prelude.{◌≡◌, ◌<◌, ◌^◌, ◌||◌, ◌++◌, ℕ, List, [], length, map, IfOk, if◌then◌else◌};
ghost use Rattle.std.specs.String.{string_bytes};
ghost use Rattle.chain_model.specs.Apply.{StageList};
ghost use Rattle.chain_model.specs.Reports.{end_line, rules_of};
ghost use Rattle.plugin_trait.specs.HeardStands.{HeardStands};
ghost use Rattle.chain_run.specs.Met.{AllMetTo};
ghost use Rattle.tsp_top.specs.ByPlugin.{by_plugin};
ghost use Rattle.tsp_top.specs.PlannedChain.{named_rules, stuffing_of};
ghost use Rattle.tsp_top.specs.Faults.{faults_from};
ghost use Rattle.tsp_top.specs.LeftOut.{KnowsAll, input_faulty, kept_out};
ghost use Rattle.chain_args.specs.ValidPlan.{IsValidGeneral};
ghost use Rattle.tsp_top.specs.Printed.{input_printed, reports_asked};
ghost use Rattle.tsp_top.specs.Reported.{ReachesCut, ReportsRun};

use crate::call_notes::PluginNotes;
use crate::end_line::end_line_text;
use crate::input_report::push_input;
use crate::reporting::{either, push_reports};
use crate::status::{Status, status_of_run};
use chain_args::GeneralConf;
use chain_core::Closed;
use plugin_settings::PluginItem;
use plugin_trait::{Heard, Plugin};
use search_source::KeptGaps;
use std::alloc::{AllocError, Global};
use ts_outside::{Desk, say};

/// The last line of a report, or nothing where its lines are bare.
pub(crate) fn last_text(alloc: Global, bare: bool, closed: Closed) -> Result<String, AllocError>
    ensures { IfOk result (λ text. string_bytes text ≡ (if bare then [] else end_line closed.cause closed.cut)) }
{
    if bare {
        return Ok(String::new(alloc));
    }
    end_line_text(alloc, closed.cause, closed.cut)
}

/// The text of a report, and whether a plugin has a fault.
#[derive(Drop)]
pub(crate) struct Judged {
    pub(crate) text: String,
    pub(crate) faulty: bool,
}

/// All that is reported of a run: what the input reports, what the plugins report of the cells before the cut, then the end line, unless the report is
/// to be bare; and whether one of them has a fault there.
fn report_text<P: Plugin>(
    alloc: Global,
    general: &GeneralConf,
    kept: &Option<KeptGaps>,
    plugins: &mut [Heard<P>],
    items: &[PluginItem],
    closed: Closed,
) -> Result<Judged, AllocError>
    requires valid { IsValidGeneral general.now }
    requires numbers { length plugins.old < 2 ^ 62 }
    requires reach { ReachesCut (HeardStands P.rule P.stands_for) plugins.old closed.cut 0 }
    ensures { (tables : List (List (List ℕ))) (input : StageList)
        → map (by_plugin P.rule) plugins.old ≡ rules_of (named_rules items.now tables)
        → AllMetTo (HeardStands P.rule P.stands_for) (map (by_plugin P.rule) plugins.old) input closed.cut 0 plugins.old
        → IfOk result (λ judged.
        (judged.faulty ≡ (input_faulty (stuffing_of general.now) (kept_out kept.now) closed.cut closed.cause
        || faults_from (rules_of (named_rules items.now tables)) input closed.cut 0 (named_rules items.now tables)))
        × (string_bytes judged.text ≡ input_printed general.now.bare (stuffing_of general.now) (kept_out kept.now) closed.cut closed.cause
        ++ reports_asked general.now (named_rules items.now tables) input closed.cut closed.cause)
        × KnowsAll (stuffing_of general.now) kept.now closed.cut closed.cause) }
{
    let mut text = String::new(alloc);
    let input_faulty = push_input(alloc, &mut text, general, kept, closed)?;
    let plugin_faulty = push_reports(&mut text, general.bare, plugins, items, 0, closed.cut)?;
    let faulty = either(input_faulty, plugin_faulty);
    let last = last_text(alloc, general.bare, closed)?;
    text.push_str(last.as_str())?;
    Ok(Judged { text, faulty })
}

/// Whether the closing of the output or the report failed.
pub(crate) fn one_failed(closing_failed: bool, report_failed: bool) -> bool
    ensures { result ≡ (closing_failed || report_failed) }
{
    closing_failed || report_failed
}

/// Reports a run, and returns its status. Where the report is bare and did not fail, its end is noted, to be told elsewhere.
pub(crate) fn report_run<P: Plugin, D: Desk>(
    alloc: Global,
    desk: &mut D,
    general: &GeneralConf,
    kept: &Option<KeptGaps>,
    plugins: &mut [Heard<P>],
    items: &[PluginItem],
    closed: Closed,
    closing_failed: bool,
    notes: &mut PluginNotes,
) -> Status
    requires valid { IsValidGeneral general.now }
    requires numbers { length plugins.old < 2 ^ 62 }
    requires reach { ReachesCut (HeardStands P.rule P.stands_for) plugins.old closed.cut 0 }
    ensures { (tables : List (List (List ℕ))) (input : StageList)
        → map (by_plugin P.rule) plugins.old ≡ rules_of (named_rules items.now tables)
        → AllMetTo (HeardStands P.rule P.stands_for) (map (by_plugin P.rule) plugins.old) input closed.cut 0 plugins.old
        → ReportsRun general.now (input_printed general.now.bare (stuffing_of general.now) (kept_out kept.now) closed.cut closed.cause
        ++ reports_asked general.now (named_rules items.now tables) input closed.cut closed.cause)
        (input_faulty (stuffing_of general.now) (kept_out kept.now) closed.cut closed.cause
        || faults_from (rules_of (named_rules items.now tables)) input closed.cut 0 (named_rules items.now tables))
        (KnowsAll (stuffing_of general.now) kept.now closed.cut closed.cause) closed.cause closing_failed (D.seen desk.old) (D.seen desk.new) result }
{
    match report_text(alloc, general, kept, plugins, items, closed) {
        Ok(Judged { text, faulty }) => {
            let failed = say(desk, text.as_str());
            notes.note_end(general.bare, failed, closed);
            let late = one_failed(closing_failed, failed);
            status_of_run(general, faulty, closed.cause, late)
        }
        Err(AllocError) => Status::NoMemory,
    }
}
