//! A run in one thread that tells its lines while it goes.
ghost use Rattle.std.specs.Prelude.{◌≡◌, ◌+◌, ◌<◌, ◌≤◌, ◌++◌, ℕ, suc, List, [], length, map, vec_len, vec_capacity, true, is_err, IfOk, OnErr, IsOk};
ghost use Rattle.std.specs.List.{All};
ghost use Rattle.chain_model.specs.Reports.{NamedRule, rules_of};
ghost use Rattle.chain_core.specs.declared.core_plan.CorePlan.{CorePlan};
ghost use Rattle.chain_core.specs.ChainRun.{AllEnded};
ghost use Rattle.chain_core.specs.CoreNumbers.{IsValidPlan, progress_of_core};
ghost use Rattle.plugin_trait.specs.HeardStands.{HeardStands};
ghost use Rattle.plugin_trait.specs.declared.heard.Heard.{Heard};
ghost use Rattle.stage_run.specs.Seeing.{seeing, heard_rule};
ghost use Rattle.stage_run.specs.declared.input_part.InputPart.{InputPart};
ghost use Rattle.stage_run.specs.declared.output_part.OutputPart.{OutputPart};
ghost use Rattle.stage_run.specs.declared.stuffing.Stuffing.{Stuffing};
ghost use Rattle.stage_run.specs.Parts.{IsUnused};
ghost use Rattle.chain_rounds.specs.Round.{AreNames};
ghost use Rattle.chain_run.specs.Fresh.{AreFresh};
ghost use Rattle.chain_run.specs.Runs.{began_with};
ghost use Rattle.chain_run.specs.RunOf.{NeverBegan};
ghost use Rattle.chain_run.specs.Working.{IsRunning, RunsSomehow};
ghost use Rattle.chain_tells.specs.Live.{TellsAll, LiveRun};
ghost use Rattle.chain_tells.specs.Printing.{PrintsLines};

use crate::laws::{a_round_tells_nothing, nothing_is_told_at_first, what_was_told_is_right};
use crate::printing::print_lines;
use crate::taking::take_told;
use crate::{LineTexts, Printing, WaitingLines};
use chain_core::CorePlan;
use chain_run::{RunEnd, SerialChain, SerialRun, Stages, begin, end};
use plugin_trait::Plugin;
use std::alloc::{AllocError, Global};
use ts_outside::{Desk, Gate, Sink, Source};

/// What a run that told its lines returns.
pub struct LiveEnd<S, K, P> {
    /// What each run returns. The plugins have the lines that were not told.
    pub end: RunEnd<S, K, P>,
    /// Whether all lines of the run were told. Else memory ran out for the last ones, which the plugins have.
    pub all_told: bool,
}

/// Tells the lines of all plugins at the positions that the output has given, those that were not told before. Returns whether
/// they were told; out of memory the plugins keep them, and nothing is printed.
fn tell<S: Source, K: Sink, P: Plugin, D: Desk, L: LineTexts>(
    alloc: Global,
    chain: &mut SerialChain<S, K, P>,
    lines: &mut WaitingLines,
    texts: &L,
    printing: &mut Printing,
    desk: &mut D,
) -> bool
    requires runs { RunsSomehow (seeing S.seen K.seen P.rule P.stands_for P.preallocated) chain.old }
    requires rows { length lines.old.rows.items + 2 ≡ length chain.old.parts.items }
    ensures told { TellsAll (seeing S.seen K.seen P.rule P.stands_for P.preallocated) (PrintsLines D.seen (L.text_of texts.now))
        (printing.old, desk.old) (printing.new, desk.new) result chain.old chain.new }
    ensures runs { RunsSomehow (seeing S.seen K.seen P.rule P.stands_for P.preallocated) chain.new }
    ensures core { chain.new.core ≡ chain.old.core }
    ensures rows { length lines.new.rows.items + 2 ≡ length chain.new.parts.items }
    ensures same_rows { length lines.new.rows.items ≡ length lines.old.rows.items }
{
    if take_told(alloc, chain, lines).is_err() {
        return false;
    }
    if lines.is_empty() {
        return true;
    }
    print_lines(alloc, texts, printing, desk, lines);
    true
}

/// Lets the stages take their turns until all of them have ended, and tells the new lines after each round. Returns whether
/// the last ones were told.
fn run_rounds<S: Source, K: Sink, P: Plugin, G: Gate, D: Desk, L: LineTexts>(
    alloc: Global,
    chain: &mut SerialChain<S, K, P>,
    lines: &mut WaitingLines,
    sizes: &[u32],
    gate: &G,
    texts: &L,
    printing: &mut Printing,
    desk: &mut D,
) -> bool
    requires runs { RunsSomehow (seeing S.seen K.seen P.rule P.stands_for P.preallocated) chain.old }
    requires rows { length lines.old.rows.items + 2 ≡ length chain.old.parts.items }
    requires sizes { All (λ size. 1 ≤ size) sizes.now }
    requires some_size { 0 < length sizes.now }
    ensures told { TellsAll (seeing S.seen K.seen P.rule P.stands_for P.preallocated) (PrintsLines D.seen (L.text_of texts.now))
        (printing.old, desk.old) (printing.new, desk.new) result chain.old chain.new }
    ensures runs { RunsSomehow (seeing S.seen K.seen P.rule P.stands_for P.preallocated) chain.new }
    ensures over { AllEnded chain.new.core.plan (progress_of_core chain.new.core) }
    ensures rows { length lines.new.rows.items + 2 ≡ length chain.new.parts.items }
    ensures same_rows { length lines.new.rows.items ≡ length lines.old.rows.items }
{
    // It runs nothing: the proof cites it.
    a_round_tells_nothing::<S, K, P>();
    let mut next = 0;
    loop {
        let moved = chain.round(sizes, &mut next, gate);
        let all_told = tell(alloc, chain, lines, texts, printing, desk);
        if !moved {
            return all_told;
        }
    }
}

/// Runs a chain that was begun, and takes it apart.
fn run_begun<S: Source, K: Sink, P: Plugin, G: Gate, D: Desk, L: LineTexts>(
    alloc: Global,
    mut run: SerialRun<S, K, P>,
    mut lines: WaitingLines,
    sizes: &[u32],
    gate: &G,
    texts: &L,
    printing: &mut Printing,
    desk: &mut D,
) -> LiveEnd<S, K, P>
    requires runs { RunsSomehow (seeing S.seen K.seen P.rule P.stands_for P.preallocated) run.chain }
    requires none { run.plugins.items ≡ [] }
    requires room { length run.chain.parts.items ≤ vec_capacity run.plugins + 2 }
    requires rows { length lines.rows.items + 2 ≡ length run.chain.parts.items }
    requires sizes { All (λ size. 1 ≤ size) sizes.now }
    requires some_size { 0 < length sizes.now }
    ensures closed { (plugins : List NamedRule) (name_of : ℕ → List ℕ) (from : InputPart S) (stuffing : Stuffing)
        (met_none : List (Heard P)) (to : OutputPart K) (plan : CorePlan)
        → let see = seeing S.seen K.seen P.rule P.stands_for P.preallocated in
        map (heard_rule see) met_none ≡ rules_of plugins → AreNames name_of 0 plugins
        → IsRunning see (began_with see from stuffing met_none to plan)
        run.chain.core run.chain.parts.items run.chain.cells.items
        → IfOk result.end.closed (LiveRun see plugins name_of (PrintsLines D.seen (L.text_of texts.now)) (printing.old, desk.old) (printing.new, desk.new) result.all_told
        from result.end.input stuffing met_none result.end.plugins.items to result.end.output plan) }
    ensures ran { IsOk result.end.closed }
{
    // They run nothing: the proof cites them.
    nothing_is_told_at_first::<S, K, P>();
    what_was_told_is_right::<S, K, P>();
    let all_told = run_rounds(
        alloc,
        &mut run.chain,
        &mut lines,
        sizes,
        gate,
        texts,
        printing,
        desk,
    );
    LiveEnd {
        end: end(run),
        all_told,
    }
}

/// Where there was no memory for a run, its stages come back.
pub(crate) fn never_ran<S, K, P>(stages: Stages<S, K, P>) -> LiveEnd<S, K, P>
    ensures never { NeverBegan stages.input result.end.input
        stages.plugins.items result.end.plugins.items stages.output result.end.output }
    ensures closed { is_err result.end.closed ≡ true }
{
    let Stages {
        input,
        stuffing: _,
        plugins,
        output,
    } = stages;
    LiveEnd {
        end: RunEnd {
            input,
            plugins,
            output,
            closed: Err(AllocError),
        },
        all_told: true,
    }
}

/// Runs a chain in one thread, its stages in turn, tells the lines of its plugins while it runs, and returns its parts.
///
/// After each round the lines of the packets that were written are printed at the desk, in the order of their positions and at one
/// position in that of the plugins; nothing is reported where there are none. The plugins come back with the lines that were not
/// told, which are none but where memory ran out. The i-th turn works on at most as many cells as `sizes` has at i modulo its
/// length. The memory of the run, but for that of the plugins' steps and lines, is taken before the first read; where there
/// is not enough, `closed` is `AllocError` and nothing was done.
pub fn run_live<S: Source, K: Sink, P: Plugin, G: Gate, D: Desk, L: LineTexts>(
    alloc: Global,
    stages: Stages<S, K, P>,
    plan: &CorePlan,
    sizes: &[u32],
    gate: &G,
    texts: &L,
    printing: &mut Printing,
    desk: &mut D,
) -> LiveEnd<S, K, P>
    requires every { 1 ≤ stages.stuffing.every }
    requires unused { IsUnused stages.input }
    requires valid { IsValidPlan plan.now }
    requires plugins { plan.now.plugins ≡ vec_len stages.plugins }
    requires sizes { All (λ size. 1 ≤ size) sizes.now }
    requires some_size { 0 < length sizes.now }
    requires fresh { AreFresh (HeardStands P.rule P.stands_for) stages.plugins.items }
    ensures closed { (plugins : List NamedRule) (name_of : ℕ → List ℕ)
        → let see = seeing S.seen K.seen P.rule P.stands_for P.preallocated in
        map (heard_rule see) stages.plugins.items ≡ rules_of plugins → AreNames name_of 0 plugins
        → IfOk result.end.closed (LiveRun see plugins name_of (PrintsLines D.seen (L.text_of texts.now)) (printing.old, desk.old) (printing.new, desk.new) result.all_told
        stages.input result.end.input stages.stuffing stages.plugins.items result.end.plugins.items
        stages.output result.end.output plan.now) }
    ensures never_began { OnErr result.end.closed (NeverBegan stages.input result.end.input
        stages.plugins.items result.end.plugins.items stages.output result.end.output) }
    ensures silent { OnErr result.end.closed ((printing.new ≡ printing.old) × (desk.new ≡ desk.old)) }
{
    let Ok(lines) = WaitingLines::new(alloc, plan.plugins) else {
        return never_ran(stages);
    };
    match begin(alloc, stages, plan) {
        Ok(run) => run_begun(alloc, run, lines, sizes, gate, texts, printing, desk),
        Err(back) => never_ran(back),
    }
}
