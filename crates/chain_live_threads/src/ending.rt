//! The end of a run in two threads: the chain is taken apart, and the last lines are told.
ghost use Rattle.std.specs.Prelude.{◌≡◌, ◌+◌, ◌<◌, ◌≤◌, ℕ, List, [], drop, length, slice_index_or, vec_len, vec_capacity, IfOk, OnErr, IsOk};
ghost use Rattle.ts_packet.specs.declared.cell.Cell.{Cell};
ghost use Rattle.chain_model.specs.Apply.{StageList};
ghost use Rattle.chain_model.specs.PluginRule.{PluginRule};
ghost use Rattle.chain_model.specs.Reports.{NamedRule};
ghost use Rattle.chain_core.specs.declared.core_plan.CorePlan.{CorePlan};
ghost use Rattle.plugin_trait.specs.declared.heard.Heard.{Heard};
ghost use Rattle.stage_run.specs.Seeing.{seeing};
ghost use Rattle.stage_run.specs.declared.input_part.InputPart.{InputPart};
ghost use Rattle.stage_run.specs.declared.output_part.OutputPart.{OutputPart};
ghost use Rattle.stage_run.specs.declared.stuffing.Stuffing.{Stuffing};
ghost use Rattle.chain_run.specs.Met.{MetFirst, AllMetFirst};
ghost use Rattle.chain_run.specs.Runs.{began_with, told_to};
ghost use Rattle.chain_tells.specs.Live.{LiveRun};
ghost use Rattle.chain_tells.specs.Printing.{PrintsLines};
ghost use Rattle.chain_tells.specs.Waiting.{told_rows};
ghost use Rattle.chain_threads.specs.Over.{AllHaveEnded};
ghost use Rattle.window_ring.specs.Seats.{key_of, table_of};
ghost use Rattle.window_ring.specs.Views.{root_view};
ghost use Rattle.chain_live_threads.specs.Ending.{HeardFrom, rules_by, IsMarkedTo, TakesRest, TellsRest, SeatsHaveTold};

use crate::laws::run_laws;
use crate::telling::Telling;
use atomic_table::Seat;
use chain_run::{GivenBack, RunEnd, any_run, take_apart};
use chain_tells::{LineTexts, LiveEnd, Printing, WaitingLines, print_lines};
use chain_threads::together;
use plugin_trait::{Heard, Line, Plugin};
use stage_run::StagePart;
use std::alloc::{AllocError, Global};
use std::mem;
use ts_outside::{Desk, Sink, Source};
use window_ring::{Ring, StageSeat, State, View, one_run};

/// Gives a plugin the cut as its mark. It keeps its lines.
fn mark_rest<P: Plugin>(heard: &mut Heard<P>, cut: u64) -> Result<(), AllocError>
    requires met { (list : List Cell) × (count : ℕ) × (from : ℕ)
        × MetFirst (HeardFrom P.rule P.stands_for from) heard.old list count cut }
    ensures keeps { (list : List Cell) (count from : ℕ) → MetFirst (HeardFrom P.rule P.stands_for from) heard.old list count cut
        → MetFirst (HeardFrom P.rule P.stands_for from) heard.new list count cut }
    ensures marked { (list : List Cell) (count from : ℕ) → MetFirst (HeardFrom P.rule P.stands_for from) heard.old list count cut
        → IfOk result (λ _. IsMarkedTo P.rule P.stands_for from heard.new list count cut) }
    ensures rule { P.rule heard.new.plugin ≡ P.rule heard.old.plugin }
{
    heard.plugin.note(cut, &mut heard.lines)
}

/// Takes away the lines of a plugin.
fn take_own<P>(alloc: Global, heard: &mut Heard<P>) -> Vec<Line>
    ensures lines { result.items ≡ heard.old.lines.items }
    ensures plugin { heard.new.plugin ≡ heard.old.plugin }
    ensures none { heard.new.lines.items ≡ [] }
{
    mem::replace(&mut heard.lines, Vec::new(alloc))
}

/// Gives the plugins from this one on the cut as their mark, and then takes away their lines up to it, each into its row. Out of
/// memory each keeps its lines.
fn take_rest<P: Plugin>(
    alloc: Global,
    plugins: &mut Vec<Heard<P>>,
    plugin: usize,
    cut: u64,
    lines: &mut WaitingLines,
) -> Result<(), AllocError>
    requires plugin { plugin ≤ length plugins.old.items }
    requires rows { length lines.old.rows.items ≡ length plugins.old.items }
    requires met { (rules : List PluginRule) × (input : StageList) × (gave : ℕ → ℕ) × (from : ℕ)
        × AllMetFirst (HeardFrom P.rule P.stands_for from) rules input gave cut plugin (drop plugin plugins.old.items) }
    ensures takes { (rules : List PluginRule) (input : StageList) (gave : ℕ → ℕ) (from : ℕ)
        → AllMetFirst (HeardFrom P.rule P.stands_for from) rules input gave cut plugin (drop plugin plugins.old.items)
        → IfOk result (λ _. TakesRest P.rule P.stands_for rules input gave from cut plugin
        (drop plugin plugins.old.items) (drop plugin plugins.new.items) (told_rows plugin (drop plugin lines.new.rows.items))) }
    ensures keeps { (rules : List PluginRule) (input : StageList) (gave : ℕ → ℕ) (from : ℕ)
        → AllMetFirst (HeardFrom P.rule P.stands_for from) rules input gave cut plugin (drop plugin plugins.old.items)
        → OnErr result (AllMetFirst (HeardFrom P.rule P.stands_for from) rules input gave cut plugin (drop plugin plugins.new.items)) }
    ensures rules { rules_by P.rule plugins.new.items ≡ rules_by P.rule plugins.old.items }
    ensures untouched { (i : ℕ) (d : Heard P) → i < plugin
        → slice_index_or plugins.new.items i d ≡ slice_index_or plugins.old.items i d }
    ensures long { length plugins.new.items ≡ length plugins.old.items }
    ensures rows { length lines.new.rows.items ≡ length lines.old.rows.items }
{
    if plugin >= plugins.len() {
        return Ok(());
    }
    mark_rest(&mut plugins[plugin], cut)?;
    take_rest(alloc, plugins, plugin + 1, cut, lines)?;
    let taken = take_own(alloc, &mut plugins[plugin]);
    lines.put(plugin, taken);
    Ok(())
}

/// Tells the lines below the cut that were not told before. Returns whether they were told; out of memory the plugins keep them,
/// and nothing is printed.
fn tell_rest<P: Plugin, D: Desk, L: LineTexts>(
    alloc: Global,
    plugins: &mut Vec<Heard<P>>,
    cut: u64,
    telling: &mut Telling,
    texts: &L,
    desk: &mut D,
) -> bool
    requires rows { length telling.old.lines.rows.items ≡ length plugins.old.items }
    requires met { (rules : List PluginRule) × (input : StageList) × (gave : ℕ → ℕ) × (from : ℕ)
        × AllMetFirst (HeardFrom P.rule P.stands_for from) rules input gave cut 0 plugins.old.items }
    ensures tells { (rules : List PluginRule) (input : StageList) (gave : ℕ → ℕ) (from : ℕ)
        → AllMetFirst (HeardFrom P.rule P.stands_for from) rules input gave cut 0 plugins.old.items
        → TellsRest P.rule P.stands_for rules input gave from cut (PrintsLines D.seen (L.text_of texts.now))
        (telling.old.printing, desk.old) (telling.new.printing, desk.new) result plugins.old.items plugins.new.items }
    ensures rules { rules_by P.rule plugins.new.items ≡ rules_by P.rule plugins.old.items }
{
    if take_rest(alloc, plugins, 0, cut, &mut telling.lines).is_err() {
        return false;
    }
    if telling.lines.is_empty() {
        return true;
    }
    print_lines(
        alloc,
        texts,
        &mut telling.printing,
        desk,
        &mut telling.lines,
    );
    true
}

/// Closes the ring of stages that have ended, takes the chain apart, and tells the last lines. The plugins go into the row, which
/// has room for them.
pub(crate) fn end_told<S: Source, K: Sink, P: Plugin, D: Desk, L: LineTexts>(
    alloc: Global,
    ring: Ring,
    root: Seat<State, View>,
    seats: Vec<StageSeat>,
    parts: Vec<StagePart<S, K, P>>,
    plugins: Vec<Heard<P>>,
    mut telling: Telling,
    texts: &L,
    printing: &mut Printing,
    desk: &mut D,
) -> LiveEnd<S, K, P>
    requires ended { (from : InputPart S) × (stuffing : Stuffing) × (met_none : List (Heard P)) × (to : OutputPart K)
        × (plan : CorePlan) × ((key_of ring).plan ≡ plan)
        × AllHaveEnded (seeing S.seen K.seen P.rule P.stands_for P.preallocated)
        (told_to (began_with (seeing S.seen K.seen P.rule P.stands_for P.preallocated) from stuffing met_none to plan) (λ _. telling.told))
        (key_of ring).base (table_of ring) seats.items parts.items }
    requires words { (table_of ring).words ≡ 1 }
    requires slots { (table_of ring).slots ≡ 1 }
    requires of_table { root.table_id ≡ table_of ring }
    requires root { (made : ℕ) × (root.me ≡ (root_view (key_of ring) made [], [])) }
    requires none { plugins.items ≡ [] }
    requires room { vec_len parts ≤ vec_capacity plugins + 2 }
    requires rows { length telling.lines.rows.items + 2 ≡ vec_len parts }
    ensures closed { (plugins : List NamedRule) (name_of : ℕ → List ℕ) (from : InputPart S) (stuffing : Stuffing)
        (met_none : List (Heard P)) (to : OutputPart K) (plan : CorePlan) (first : Printing × D)
        → let see = seeing S.seen K.seen P.rule P.stands_for P.preallocated in
        let begun = began_with see from stuffing met_none to plan in
        (key_of ring).plan ≡ plan
        → AllHaveEnded see (told_to begun (λ _. telling.told)) (key_of ring).base (table_of ring) seats.items parts.items
        → SeatsHaveTold see begun plugins name_of (PrintsLines D.seen (L.text_of texts.now)) first (telling.printing, desk.old)
        telling.told seats.items
        → IfOk result.end.closed (LiveRun see plugins name_of (PrintsLines D.seen (L.text_of texts.now)) first
        (printing.new, desk.new) result.all_told
        from result.end.input stuffing met_none result.end.plugins.items to result.end.output plan) }
    ensures ran { IsOk result.end.closed }
{
    // They run nothing: the proof cites them.
    run_laws::<S, K, P>();
    one_run();
    together::<S, K, P>();
    any_run::<S, K, P>();
    let closed = ring.close(root, seats);
    let GivenBack {
        input,
        mut plugins,
        output,
    } = take_apart(parts, plugins);
    let all_told = tell_rest(alloc, &mut plugins, closed.cut, &mut telling, texts, desk);
    *printing = telling.printing;
    LiveEnd {
        end: RunEnd {
            input,
            plugins,
            output,
            closed: Ok(closed),
        },
        all_told,
    }
}
