//! A chain that is ready to run: its numbers and its plugins, before anything is opened.
ghost use Rattle.std.specs.Prelude.{◌≡◌, ◌++◌, ◌∷◌, [], map, IfOk, IsOkAnd, OnOk};
ghost use Rattle.std.specs.List.{All};
ghost use Rattle.plugin_trait.specs.HeardStands.{HeardStands};
ghost use Rattle.plugin_settings.specs.Items.{IsValidItem, preallocated_of_item};
ghost use Rattle.chain_args.specs.ValidPlan.{IsValidPlan};
ghost use Rattle.chain_model.specs.Reports.{rules_of};
ghost use Rattle.chain_run.specs.Fresh.{AreFresh};
ghost use Rattle.tsp_top.specs.ByPlugin.{by_plugin};
ghost use Rattle.tsp_top.specs.PlannedChain.{first_table, later_tables, named_rules};
ghost use Rattle.tsp_top.specs.Ran.{IsReady};

use crate::driver::Driver;
use crate::planning::{planned_core, planned_stuffing};
use chain_args::Plan;
use chain_core::CorePlan;
use plugin_set::AnyPlugin;
use plugin_settings::PluginItem;
use plugin_trait::{Heard, Plugin};
use stage_run::Stuffing;
use std::alloc::{AllocError, Global};
use ts_section::Section;

/// All that a plan gives a run but its two ends.
#[derive(Drop)]
pub(crate) struct ReadyChain<P> {
    pub(crate) stuffing: Stuffing,
    pub(crate) core: CorePlan,
    pub(crate) plugins: Vec<Heard<P>>,
}

/// Takes out the first of the tables; where there is none, a table without sections.
fn take_table(alloc: Global, tables: &mut Vec<Vec<Section>>) -> Vec<Section>
    ensures first { result.items ≡ first_table (map (λ table. table.items) tables.old.items) }
    ensures later { map (λ table. table.items) tables.new.items
        ≡ later_tables (map (λ table. table.items) tables.old.items) }
{
    if tables.len() == 0 {
        Vec::new(alloc)
    } else {
        tables.remove(0)
    }
}

/// A plugin that was made, which has no lines yet.
fn without_lines<P: Drop>(
    alloc: Global,
    made: Result<P, AllocError>,
) -> Result<Heard<P>, AllocError>
    ensures plugin { IfOk result (λ heard. IsOkAnd made (λ plugin. heard.plugin ≡ plugin)) }
    ensures none { IfOk result (λ heard. heard.lines.items ≡ []) }
{
    let plugin = made?;
    Ok(Heard {
        plugin,
        lines: Vec::new(alloc),
    })
}

/// Appends a plugin that was made to others.
fn push_made<P: Drop>(plugins: &mut Vec<P>, made: Result<P, AllocError>) -> Result<(), AllocError>
    ensures { OnOk result (IsOkAnd made (λ plugin. plugins.new.items ≡ plugins.old.items ++ plugin ∷ [])) }
{
    plugins.push(made?)?;
    Ok(())
}

/// Appends the plugins of these settings and tables, which met no cell and have no lines yet, to others.
fn add_plugins(
    alloc: Global,
    plugins: &mut Vec<Heard<AnyPlugin>>,
    items: &[PluginItem],
    tables: &mut Vec<Vec<Section>>,
    buffer: usize,
) -> Result<(), AllocError>
    requires valid { All IsValidItem items.now }
    requires before { AreFresh (HeardStands ⟦<AnyPlugin as Plugin>⟧.rule ⟦<AnyPlugin as Plugin>⟧.stands_for) plugins.old.items }
    ensures rules { OnOk result
        (map (by_plugin ⟦<AnyPlugin as Plugin>⟧.rule) plugins.new.items
        ≡ map (by_plugin ⟦<AnyPlugin as Plugin>⟧.rule) plugins.old.items ++ rules_of
        (named_rules items.now (map (λ table. table.items) tables.old.items))) }
    ensures rooms { OnOk result
        (map (by_plugin ⟦<AnyPlugin as Plugin>⟧.preallocated) plugins.new.items
        ≡ map (by_plugin ⟦<AnyPlugin as Plugin>⟧.preallocated) plugins.old.items
        ++ map (λ item. preallocated_of_item item buffer) items.now) }
    ensures fresh { OnOk result (AreFresh (HeardStands ⟦<AnyPlugin as Plugin>⟧.rule ⟦<AnyPlugin as Plugin>⟧.stands_for) plugins.new.items) }
{
    let Some((item, rest)) = items.split_first() else {
        return Ok(());
    };
    let table = take_table(alloc, tables);
    let made = AnyPlugin::of(alloc, item, table, buffer);
    push_made(plugins, without_lines(alloc, made))?;
    add_plugins(alloc, plugins, rest, tables, buffer)
}

/// Makes ready what a plan asks for, with the tables of its plugins, for this driver.
pub(crate) fn ready_chain(
    alloc: Global,
    plan: &Plan,
    tables: Vec<Vec<Section>>,
    driver: Driver,
) -> Result<ReadyChain<AnyPlugin>, AllocError>
    requires { IsValidPlan plan.now }
    ensures { IfOk result (λ ready. IsReady
        ⟦<AnyPlugin as Plugin>⟧.rule ⟦<AnyPlugin as Plugin>⟧.stands_for ⟦<AnyPlugin as Plugin>⟧.preallocated
        plan.now (map (λ table. table.items) tables.items) ready.stuffing ready.core ready.plugins.items) }
{
    let mut tables = tables;
    let core = planned_core(plan, driver);
    let mut plugins: Vec<Heard<AnyPlugin>> = Vec::new(alloc);
    add_plugins(
        alloc,
        &mut plugins,
        plan.plugins.as_slice(),
        &mut tables,
        core.buffer,
    )?;
    Ok(ReadyChain {
        stuffing: planned_stuffing(&plan.general),
        core,
        plugins,
    })
}
