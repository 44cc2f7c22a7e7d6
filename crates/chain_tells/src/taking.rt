//! The lines of all plugins below what the output has given.
//!
//! Memory is taken only while the plugins are given their mark. Where it runs out there, no line was taken away: so no line is
//! ever lost.
ghost use Rattle.std.specs.Prelude.{◌≡◌, ◌+◌, ◌<◌, ◌≤◌, ◌++◌, ℕ, suc, List, length, drop, IfOk, OnErr};
ghost use Rattle.std.specs.List.{AllByRecursion};
ghost use Rattle.chain_model.specs.Reports.{NamedRule};
ghost use Rattle.chain_core.specs.CoreNumbers.{progress_of_core};
ghost use Rattle.stage_run.specs.Seeing.{seeing};
ghost use Rattle.chain_rounds.specs.declared.told_line.ToldLine.{ToldLine};
ghost use Rattle.chain_run.specs.Runs.{RunStart};
ghost use Rattle.chain_run.specs.Working.{IsRunning, RunsSomehow};
ghost use Rattle.chain_tells.specs.Taking.{StillRuns, Marks, GivesLines, TakesLines};
ghost use Rattle.chain_tells.specs.Rounds.{IsWithin};
ghost use Rattle.chain_tells.specs.Telling.{Tells};
ghost use Rattle.chain_tells.specs.Waiting.{told_rows, waiting};

use crate::line_row::LineRow;
use crate::waiting_lines::WaitingLines;
use chain_run::{SerialChain, machine_laws};
use plugin_trait::{Line, Plugin};
use std::alloc::{AllocError, Global};
use std::collections::VecDeque;
use ts_outside::{Sink, Source};

/// Gives the plugin after so many others the mark. It keeps its lines.
fn mark_one<S: Source, K: Sink, P: Plugin>(
    chain: &mut SerialChain<S, K, P>,
    plugin: usize,
    written: u64,
) -> Result<(), AllocError>
    requires runs { RunsSomehow (seeing S.seen K.seen P.rule P.stands_for P.preallocated) chain.old }
    requires plugin { plugin + 2 < length chain.old.parts.items }
    requires written { written ≡ (progress_of_core chain.old.core (suc chain.old.core.plan.plugins)).given }
    ensures marks { (begun : RunStart S K)
        → let see = seeing S.seen K.seen P.rule P.stands_for P.preallocated in
        (goes : IsRunning see begun chain.old.core chain.old.parts.items chain.old.cells.items)
        → IfOk result (λ _. Marks see begun goes.runs.visits goes.runs.lists plugin written
        chain.new.core chain.new.parts.items chain.new.cells.items) }
    ensures keeps { (begun : RunStart S K)
        → let see = seeing S.seen K.seen P.rule P.stands_for P.preallocated in
        (goes : IsRunning see begun chain.old.core chain.old.parts.items chain.old.cells.items)
        → StillRuns see begun goes.runs.visits begun.told
        chain.new.core chain.new.parts.items chain.new.cells.items }
    ensures runs { RunsSomehow (seeing S.seen K.seen P.rule P.stands_for P.preallocated) chain.new }
    ensures core { chain.new.core ≡ chain.old.core }
    ensures parts { length chain.new.parts.items ≡ length chain.old.parts.items }
{
    // It runs nothing: the proof cites it.
    machine_laws();
    chain.parts[plugin + 1].note(written)
}

/// Takes away the lines of the plugin after so many others, up to its mark.
fn take_one<S: Source, K: Sink, P: Plugin>(
    alloc: Global,
    chain: &mut SerialChain<S, K, P>,
    plugin: usize,
) -> Vec<Line>
    requires runs { RunsSomehow (seeing S.seen K.seen P.rule P.stands_for P.preallocated) chain.old }
    requires plugin { plugin + 2 < length chain.old.parts.items }
    ensures gives { (begun : RunStart S K) (written : ℕ)
        → let see = seeing S.seen K.seen P.rule P.stands_for P.preallocated in
        (goes : IsRunning see begun chain.old.core chain.old.parts.items chain.old.cells.items)
        → (goes.runs.lists (suc plugin)).mark ≡ written
        → GivesLines see begun goes.runs.visits goes.runs.lists plugin written result.items
        chain.new.core chain.new.parts.items chain.new.cells.items }
    ensures runs { RunsSomehow (seeing S.seen K.seen P.rule P.stands_for P.preallocated) chain.new }
    ensures core { chain.new.core ≡ chain.old.core }
    ensures parts { length chain.new.parts.items ≡ length chain.old.parts.items }
{
    // It runs nothing: the proof cites it.
    machine_laws();
    chain.parts[plugin + 1].take_lines(alloc)
}

/// Gives the plugins after so many others the mark, and then takes away their lines up to it, each into its row. Out of memory
/// each keeps its lines.
fn take_after<S: Source, K: Sink, P: Plugin>(
    alloc: Global,
    chain: &mut SerialChain<S, K, P>,
    plugin: usize,
    written: u64,
    rows: &mut Vec<LineRow>,
) -> Result<(), AllocError>
    requires runs { RunsSomehow (seeing S.seen K.seen P.rule P.stands_for P.preallocated) chain.old }
    requires plugin { plugin + 2 ≤ length chain.old.parts.items }
    requires written { written ≡ (progress_of_core chain.old.core (suc chain.old.core.plan.plugins)).given }
    requires rows { length rows.old.items + 2 ≡ length chain.old.parts.items }
    ensures takes { (begun : RunStart S K)
        → let see = seeing S.seen K.seen P.rule P.stands_for P.preallocated in
        (goes : IsRunning see begun chain.old.core chain.old.parts.items chain.old.cells.items)
        → IfOk result (λ _. TakesLines see begun goes.runs.visits goes.runs.lists plugin written
        (told_rows plugin (drop plugin rows.new.items))
        chain.new.core chain.new.parts.items chain.new.cells.items) }
    ensures keeps { (begun : RunStart S K)
        → let see = seeing S.seen K.seen P.rule P.stands_for P.preallocated in
        (goes : IsRunning see begun chain.old.core chain.old.parts.items chain.old.cells.items)
        → OnErr result (StillRuns see begun goes.runs.visits begun.told
        chain.new.core chain.new.parts.items chain.new.cells.items) }
    ensures runs { RunsSomehow (seeing S.seen K.seen P.rule P.stands_for P.preallocated) chain.new }
    ensures core { chain.new.core ≡ chain.old.core }
    ensures parts { length chain.new.parts.items ≡ length chain.old.parts.items }
    ensures rows { length rows.new.items ≡ length rows.old.items }
{
    if plugin + 2 >= chain.parts.len() {
        return Ok(());
    }
    mark_one(chain, plugin, written)?;
    take_after(alloc, chain, plugin + 1, written, rows)?;
    let lines = take_one(alloc, chain, plugin);
    rows[plugin] = LineRow {
        lines: VecDeque::from_vec(lines),
    };
    Ok(())
}

/// Takes away the lines of all plugins at the positions that the output has given, those that were not taken before. They then
/// wait to be told.
///
/// Out of memory nothing was taken away, and each plugin keeps its lines: a later call takes them, or they come with the
/// plugins after the end.
pub fn take_told<S: Source, K: Sink, P: Plugin>(
    alloc: Global,
    chain: &mut SerialChain<S, K, P>,
    lines: &mut WaitingLines,
) -> Result<(), AllocError>
    requires runs { RunsSomehow (seeing S.seen K.seen P.rule P.stands_for P.preallocated) chain.old }
    requires rows { length lines.old.rows.items + 2 ≡ length chain.old.parts.items }
    ensures tells { (begun : RunStart S K) (plugins : List NamedRule) (name_of : ℕ → List ℕ) (before : ℕ)
        (told : List ToldLine)
        → let see = seeing S.seen K.seen P.rule P.stands_for P.preallocated in
        Tells see begun plugins name_of (λ _. before) before told
        chain.old.core chain.old.parts.items chain.old.cells.items
        → let written = (progress_of_core chain.old.core (suc begun.plan.plugins)).given in
        IfOk result (λ _. Tells see begun plugins name_of (λ _. written) written (told ++ waiting lines.new)
        chain.new.core chain.new.parts.items chain.new.cells.items) }
    ensures keeps { (begun : RunStart S K) (plugins : List NamedRule) (name_of : ℕ → List ℕ) (taken : ℕ → ℕ)
        (before : ℕ) (told : List ToldLine)
        → let see = seeing S.seen K.seen P.rule P.stands_for P.preallocated in
        Tells see begun plugins name_of taken before told chain.old.core chain.old.parts.items chain.old.cells.items
        → OnErr result (Tells see begun plugins name_of taken before told
        chain.new.core chain.new.parts.items chain.new.cells.items) }
    ensures within { (begun : RunStart S K) (plugins : List NamedRule) (name_of : ℕ → List ℕ) (before : ℕ)
        (told : List ToldLine)
        → let see = seeing S.seen K.seen P.rule P.stands_for P.preallocated in
        Tells see begun plugins name_of (λ _. before) before told
        chain.old.core chain.old.parts.items chain.old.cells.items
        → IfOk result (λ _. AllByRecursion (IsWithin before (progress_of_core chain.old.core (suc begun.plan.plugins)).given) (waiting lines.new)) }
    ensures runs { RunsSomehow (seeing S.seen K.seen P.rule P.stands_for P.preallocated) chain.new }
    ensures core { chain.new.core ≡ chain.old.core }
    ensures parts { length chain.new.parts.items ≡ length chain.old.parts.items }
    ensures rows { length lines.new.rows.items ≡ length lines.old.rows.items }
{
    // It runs nothing: the proof cites it.
    machine_laws();
    let output = chain.parts.len() - 1;
    let written = chain.core.progress(output).given;
    take_after(alloc, chain, 0, written, &mut lines.rows)
}
