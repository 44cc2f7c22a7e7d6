//! The lines of all plugins below what their stages know as written, while the chain runs.
//!
//! Lines are told only where the stages of all plugins know the same as written, which is so after each round in which none of
//! them found the turn held: so what is told is in the order of positions.

ghost use Rattle.std.specs.Prelude.{◌≡◌, ◌+◌, ◌<◌, ◌≤◌, ℕ, drop, length, true, slice_index_or, IfSome, IfOk, OnErr};
ghost use Rattle.cell_land.specs.declared.cell_window.Bases.{Bases};
ghost use Rattle.atomic_table.specs.Seated.{TableId};
ghost use Rattle.chain_threads.specs.Driving.{AreBeside};
ghost use Rattle.stage_run.specs.Seeing.{seeing};
ghost use Rattle.chain_run.specs.Runs.{RunStart};
ghost use Rattle.chain_tells.specs.Printing.{PrintsLines};
ghost use Rattle.chain_tells.specs.Waiting.{told_rows};
ghost use Rattle.chain_live_threads.specs.declared.live_stage.LiveStage.{LiveStage};
ghost use Rattle.chain_live_threads.specs.Marking.{IsSameBesidesPart};
ghost use Rattle.chain_live_threads.specs.RowTakes.{AllKnow, RowServes, RowGave};
ghost use Rattle.chain_live_threads.specs.RowWent.{RowReady, RowWent};

use crate::laws::run_laws;
use crate::live_stage::LiveStage;
use chain_tells::{LineTexts, Printing, WaitingLines, print_lines};
use plugin_trait::Plugin;
use std::alloc::{AllocError, Global};
use ts_outside::{Desk, Sink, Source};
use window_ring::Ring;

/// What was told of a row of stages, the lines that wait to be told, and what came of the printing.
#[derive(Drop)]
pub(crate) struct Telling {
    /// The position up to which the lines of the plugins were taken away.
    pub(crate) told: u64,
    /// The lines that wait to be told.
    pub(crate) lines: WaitingLines,
    /// What came of the printing so far.
    pub(crate) printing: Printing,
}

/// Whether the stages of all plugins from this one on know so many cells as written; the last stage of the row is the output's.
fn all_know<S, K, P>(row: &[LiveStage<S, K, P>], plugin: usize, written: u64) -> bool
    requires { plugin + 1 ≤ length row.now }
    ensures { result ≡ true → AllKnow row.now plugin written }
{
    if plugin + 1 >= row.len() {
        return true;
    }
    if row[plugin].written != written {
        return false;
    }
    all_know(row, plugin + 1, written)
}

/// Gives the plugins from this one on their mark, and then takes away their lines up to it, each into its row. Out of memory each
/// keeps its lines.
fn take_after<S: Source, K: Sink, P: Plugin>(
    alloc: Global,
    row: &mut [LiveStage<S, K, P>],
    plugin: usize,
    lines: &mut WaitingLines,
) -> Result<(), AllocError>
    requires serves { (begun : RunStart S K) × (base : Bases) × (table : TableId)
        × RowServes (seeing S.seen K.seen P.rule P.stands_for P.preallocated) begun base table row.old }
    requires plugin { plugin + 1 ≤ length row.old }
    requires rows { length lines.old.rows.items + 1 ≡ length row.old }
    ensures same { AreBeside IsSameBesidesPart row.old row.new }
    ensures untouched { (i : ℕ) (d : LiveStage S K P) → i < plugin → slice_index_or row.new i d ≡ slice_index_or row.old i d }
    ensures keeps { (begun : RunStart S K) (base : Bases) (table : TableId)
        → let see = seeing S.seen K.seen P.rule P.stands_for P.preallocated in
        RowServes see begun base table row.old → OnErr result (RowServes see begun base table row.new) }
    ensures gave { (begun : RunStart S K) (base : Bases) (table : TableId)
        → let see = seeing S.seen K.seen P.rule P.stands_for P.preallocated in
        RowServes see begun base table row.old
        → IfOk result (λ _. RowGave see begun base table plugin (told_rows plugin (drop plugin lines.new.rows.items))
        row.old row.new) }
    ensures rows { length lines.new.rows.items ≡ length lines.old.rows.items }
{
    if plugin + 1 >= row.len() {
        return Ok(());
    }
    row[plugin].mark()?;
    take_after(alloc, row, plugin + 1, lines)?;
    let taken = row[plugin].take_lines(alloc);
    lines.put(plugin, taken);
    Ok(())
}

/// What the stages of all plugins know as written, where they know the same, and it is not what was told.
fn newly_known<S, K, P>(row: &[LiveStage<S, K, P>], told: u64) -> Option<u64>
    ensures know { IfSome result (λ written. AllKnow row.now 0 written) }
    ensures some { IfSome result (λ written. 2 ≤ length row.now) }
{
    if row.len() < 2 {
        // There is no plugin.
        return None;
    }
    let written = row[0].written;
    if written == told {
        return None;
    }
    if !all_know(row, 0, written) {
        return None;
    }
    Some(written)
}

/// Tells the lines of all plugins below what their stages know as written, those that were not told before; nothing where some
/// of them know more than others, or memory ran out.
pub(crate) fn tell<S: Source, K: Sink, P: Plugin, D: Desk, L: LineTexts>(
    alloc: Global,
    ring: &Ring,
    row: &mut [LiveStage<S, K, P>],
    telling: &mut Telling,
    texts: &L,
    desk: &mut D,
)
    requires ready { RowReady (seeing S.seen K.seen P.rule P.stands_for P.preallocated) ring.now telling.old.told row.old }
    requires rows { length telling.old.lines.rows.items + 1 ≡ length row.old }
    ensures went { RowWent (seeing S.seen K.seen P.rule P.stands_for P.preallocated) ring.now
        (PrintsLines D.seen (L.text_of texts.now)) (telling.old.printing, desk.old) (telling.new.printing, desk.new)
        telling.old.told telling.new.told row.old row.new }
    ensures same { AreBeside IsSameBesidesPart row.old row.new }
    ensures rows { length telling.new.lines.rows.items ≡ length telling.old.lines.rows.items }
{
    // It runs nothing: the proof cites it.
    run_laws::<S, K, P>();
    let Some(written) = newly_known(row, telling.told) else {
        return;
    };
    if take_after(alloc, row, 0, &mut telling.lines).is_err() {
        return;
    }
    telling.told = written;
    if telling.lines.is_empty() {
        return;
    }
    print_lines(
        alloc,
        texts,
        &mut telling.printing,
        desk,
        &mut telling.lines,
    );
}
