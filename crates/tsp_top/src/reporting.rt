//! The report of a run: what each plugin reports of the cells that count, and whether it has a fault in them.
ghost use Rattle.std.specs.Prelude.{◌≡◌, ℕ, ◌<◌, ◌+◌, ◌^◌, ◌≤◌, ◌++◌, ◌||◌, length, map, IfOk, OnOk, List};
ghost use Rattle.std.specs.List.{flat_map};
ghost use Rattle.std.specs.String.{string_bytes};
ghost use Rattle.chain_model.specs.Reports.{rules_of};
ghost use Rattle.chain_model.specs.PluginRule.{PluginRule};
ghost use Rattle.chain_model.specs.Apply.{StageList};
ghost use Rattle.plugin_trait.specs.HeardStands.{HeardStands};
ghost use Rattle.chain_run.specs.Met.{AllMetTo};
ghost use Rattle.tsp_top.specs.ByPlugin.{by_plugin};
ghost use Rattle.tsp_top.specs.PlannedChain.{named_rules};
ghost use Rattle.tsp_top.specs.Faults.{faults_from};
ghost use Rattle.tsp_top.specs.Printed.{printed_from, printed_line};
ghost use Rattle.tsp_top.specs.Reported.{ReachesCut};

use crate::judging::judge;
use plugin_settings::PluginItem;
use plugin_trait::{Heard, Line, Plugin, report};
use std::alloc::AllocError;

/// Appends one line of plugin `j` to the text, bare or with the plugin's number and name.
pub(crate) fn push_line(
    text: &mut String,
    bare: bool,
    j: usize,
    name: &str,
    said: &str,
) -> Result<(), AllocError>
    ensures { OnOk result (string_bytes text.new ≡ string_bytes text.old ++ printed_line bare j name.now said.now) }
{
    if bare {
        write!(text, "{said}\n")
    } else {
        write!(text, "[{j}] {name}: {said}\n")
    }
}

/// Appends the lines of plugin `j` to the text, bare or not.
pub(crate) fn push_lines(
    text: &mut String,
    bare: bool,
    j: usize,
    name: &str,
    lines: &[Line],
) -> Result<(), AllocError>
    ensures { OnOk result (string_bytes text.new
        ≡ string_bytes text.old ++ flat_map (printed_line bare j name.now) (map (λ line. line.text) lines.now)) }
{
    for line in lines {
        push_line(text, bare, j, name, line.text.as_str())?;
    }
    Ok(())
}

/// Whether one of two has a fault.
pub(crate) fn either(one: bool, other: bool) -> bool
    ensures { result ≡ (one || other) }
{
    one || other
}

/// Appends to the text what the plugins report of the first `cut` cells, in bare lines or not, and returns whether one of them
/// has a fault there. The first of them comes after stage `j`.
pub(crate) fn push_reports<P: Plugin>(
    text: &mut String,
    bare: bool,
    plugins: &mut [Heard<P>],
    items: &[PluginItem],
    j: usize,
    cut: u64,
) -> Result<bool, AllocError>
    requires numbers { j + length plugins.old < 2 ^ 63 }
    requires reach { ReachesCut (HeardStands P.rule P.stands_for) plugins.old cut j }
    ensures faults { (tables : List (List (List ℕ))) (rules : List PluginRule) (input : StageList)
        → map (by_plugin P.rule) plugins.old ≡ rules_of (named_rules items.now tables)
        → AllMetTo (HeardStands P.rule P.stands_for) rules input cut j plugins.old
        → IfOk result (λ faulty. faulty ≡ faults_from rules input cut j (named_rules items.now tables)) }
    ensures said { (tables : List (List (List ℕ))) (rules : List PluginRule) (input : StageList)
        → map (by_plugin P.rule) plugins.old ≡ rules_of (named_rules items.now tables)
        → AllMetTo (HeardStands P.rule P.stands_for) rules input cut j plugins.old
        → OnOk result (string_bytes text.new
        ≡ string_bytes text.old ++ printed_from bare rules input cut j (named_rules items.now tables)) }
{
    let Some((first, rest)) = plugins.split_first_mut() else {
        return Ok(false);
    };
    let Some((item, later)) = items.split_first() else {
        return Ok(false);
    };
    let first_faulty = judge(first, cut)?;
    report(first, cut)?;
    push_lines(text, bare, j + 1, item.conf.name(), &first.lines)?;
    let later_faulty = push_reports(text, bare, rest, later, j + 1, cut)?;
    Ok(either(first_faulty, later_faulty))
}
