//! A run in one thread that tells after each round the lines of its plugins and what its input's source says.
ghost use Rattle.std.specs.Prelude.{◌≡◌, ◌+◌, ◌<◌, ◌≤◌, ℕ, suc, List, [], length, map, vec_len, vec_capacity, true, is_err, IfOk, OnErr, IsOk};
ghost use Rattle.std.specs.List.{All};
ghost use Rattle.std.specs.Option.{option_map};
ghost use Rattle.chain_model.specs.Reports.{NamedRule, rules_of};
ghost use Rattle.chain_core.specs.declared.core_plan.CorePlan.{CorePlan};
ghost use Rattle.chain_core.specs.ChainRun.{AllEnded};
ghost use Rattle.chain_core.specs.CoreNumbers.{IsValidPlan, progress_of_core};
ghost use Rattle.plugin_trait.specs.HeardStands.{HeardStands};
ghost use Rattle.plugin_trait.specs.declared.heard.Heard.{Heard};
ghost use Rattle.stage_run.specs.Seeing.{seeing, heard_rule};
ghost use Rattle.stage_run.specs.declared.input_part.InputPart.{InputPart};
ghost use Rattle.stage_run.specs.declared.output_part.OutputPart.{OutputPart};
ghost use Rattle.stage_run.specs.declared.stuffing.Stuffing.{Stuffing};
ghost use Rattle.stage_run.specs.Parts.{IsUnused};
ghost use Rattle.chain_rounds.specs.Round.{AreNames};
ghost use Rattle.chain_run.specs.Fresh.{AreFresh};
ghost use Rattle.chain_run.specs.Runs.{began_with};
ghost use Rattle.chain_run.specs.RunOf.{NeverBegan};
ghost use Rattle.chain_run.specs.Working.{IsRunning, RunsSomehow};
ghost use Rattle.chain_tells.specs.PrintingRounds.{PrintsRound};
ghost use Rattle.chain_tells.specs.Rounds.{IsAllTold, LiveRounds, Round, TellsRounds};
ghost use Rattle.chain_tells.specs.Waiting.{waiting};

use crate::laws::{a_round_tells_nothing, nothing_is_told_at_first, what_was_told_is_right};
use crate::live_run::never_ran;
use crate::printing::is_over;
use crate::taking::take_told;
use crate::{LiveEnd, Printing, RoundTexts, WaitingLines};
use chain_core::CorePlan;
use chain_run::{SerialChain, SerialRun, Stages, begin, end, machine_laws};
use plugin_trait::Plugin;
use std::alloc::{AllocError, Global};
use ts_outside::{Desk, Gate, Sink, Source, say};

/// Prints a round at the desk, unless printing is over: the lines that wait, which are taken in any case, and what the source says.
fn print_round<S, D: Desk, T: RoundTexts<S>>(
    alloc: Global,
    texts: &mut T,
    printing: &mut Printing,
    desk: &mut D,
    source: Option<&S>,
    from: u64,
    to: u64,
    lines: &mut WaitingLines,
)
    ensures prints { PrintsRound D.seen T.writes (texts.old, printing.old, desk.old) (texts.new, printing.new, desk.new)
        (record { lines = waiting lines.old; source = option_map (λ s. s.now) source.entry; from = from; to = to }) }
    ensures rows { length lines.new.rows.items ≡ length lines.old.rows.items }
{
    let text = texts.take_text(alloc, source, from, to, lines);
    if is_over(printing) {
        return;
    }
    match text {
        Ok(text) => printing.failed = say(desk, text.as_str()),
        Err(AllocError) => printing.wants = true,
    }
}

/// Tells the lines of all plugins at the positions that the output has given, those that were not told before, with what the
/// input's source says there. Returns whether they were told; out of memory the plugins keep them, and nothing is printed.
fn tell_round<S: Source, K: Sink, P: Plugin, D: Desk, T: RoundTexts<S>>(
    alloc: Global,
    chain: &mut SerialChain<S, K, P>,
    lines: &mut WaitingLines,
    told: &mut u64,
    texts: &mut T,
    printing: &mut Printing,
    desk: &mut D,
) -> bool
    requires runs { RunsSomehow (seeing S.seen K.seen P.rule P.stands_for P.preallocated) chain.old }
    requires rows { length lines.old.rows.items + 2 ≡ length chain.old.parts.items }
    ensures told { TellsRounds (seeing S.seen K.seen P.rule P.stands_for P.preallocated) (PrintsRound D.seen T.writes)
        (texts.old, printing.old, desk.old) (texts.new, printing.new, desk.new) told.old told.new chain.old chain.new }
    ensures all { IsAllTold (seeing S.seen K.seen P.rule P.stands_for P.preallocated) (PrintsRound D.seen T.writes) result told.new chain.new }
    ensures runs { RunsSomehow (seeing S.seen K.seen P.rule P.stands_for P.preallocated) chain.new }
    ensures core { chain.new.core ≡ chain.old.core }
    ensures rows { length lines.new.rows.items + 2 ≡ length chain.new.parts.items }
    ensures same_rows { length lines.new.rows.items ≡ length lines.old.rows.items }
{
    // It runs nothing: the proof cites it.
    machine_laws();
    if take_told(alloc, chain, lines).is_err() {
        return false;
    }
    let output = chain.parts.len() - 1;
    let written = chain.core.progress(output).given;
    let source = chain.parts[0].source();
    print_round(alloc, texts, printing, desk, source, *told, written, lines);
    *told = written;
    true
}

/// Lets the stages take their turns until all of them have ended, and tells what is new after each round. Returns whether the last
/// lines were told.
fn run_told_rounds<S: Source, K: Sink, P: Plugin, G: Gate, D: Desk, T: RoundTexts<S>>(
    alloc: Global,
    chain: &mut SerialChain<S, K, P>,
    lines: &mut WaitingLines,
    told: &mut u64,
    sizes: &[u32],
    gate: &G,
    texts: &mut T,
    printing: &mut Printing,
    desk: &mut D,
) -> bool
    requires runs { RunsSomehow (seeing S.seen K.seen P.rule P.stands_for P.preallocated) chain.old }
    requires rows { length lines.old.rows.items + 2 ≡ length chain.old.parts.items }
    requires sizes { All (λ size. 1 ≤ size) sizes.now }
    requires some_size { 0 < length sizes.now }
    ensures told { TellsRounds (seeing S.seen K.seen P.rule P.stands_for P.preallocated) (PrintsRound D.seen T.writes)
        (texts.old, printing.old, desk.old) (texts.new, printing.new, desk.new) told.old told.new chain.old chain.new }
    ensures all { IsAllTold (seeing S.seen K.seen P.rule P.stands_for P.preallocated) (PrintsRound D.seen T.writes) result told.new chain.new }
    ensures runs { RunsSomehow (seeing S.seen K.seen P.rule P.stands_for P.preallocated) chain.new }
    ensures over { AllEnded chain.new.core.plan (progress_of_core chain.new.core) }
    ensures rows { length lines.new.rows.items + 2 ≡ length chain.new.parts.items }
    ensures same_rows { length lines.new.rows.items ≡ length lines.old.rows.items }
{
    // It runs nothing: the proof cites it.
    a_round_tells_nothing::<S, K, P>();
    let mut next = 0;
    loop {
        let moved = chain.round(sizes, &mut next, gate);
        let all_told = tell_round(alloc, chain, lines, told, texts, printing, desk);
        if !moved {
            return all_told;
        }
    }
}

/// Runs a chain that was begun, and takes it apart.
fn run_begun_telling<S: Source, K: Sink, P: Plugin, G: Gate, D: Desk, T: RoundTexts<S>>(
    alloc: Global,
    mut run: SerialRun<S, K, P>,
    mut lines: WaitingLines,
    sizes: &[u32],
    gate: &G,
    texts: &mut T,
    printing: &mut Printing,
    desk: &mut D,
) -> LiveEnd<S, K, P>
    requires runs { RunsSomehow (seeing S.seen K.seen P.rule P.stands_for P.preallocated) run.chain }
    requires none { run.plugins.items ≡ [] }
    requires room { length run.chain.parts.items ≤ vec_capacity run.plugins + 2 }
    requires rows { length lines.rows.items + 2 ≡ length run.chain.parts.items }
    requires sizes { All (λ size. 1 ≤ size) sizes.now }
    requires some_size { 0 < length sizes.now }
    ensures closed { (plugins : List NamedRule) (name_of : ℕ → List ℕ) (from : InputPart S) (stuffing : Stuffing)
        (met_none : List (Heard P)) (to : OutputPart K) (plan : CorePlan)
        → let see = seeing S.seen K.seen P.rule P.stands_for P.preallocated in
        map (heard_rule see) met_none ≡ rules_of plugins → AreNames name_of 0 plugins
        → IsRunning see (began_with see from stuffing met_none to plan)
        run.chain.core run.chain.parts.items run.chain.cells.items
        → IfOk result.end.closed (LiveRounds see plugins name_of (PrintsRound D.seen T.writes)
        (texts.old, printing.old, desk.old) (texts.new, printing.new, desk.new) result.all_told
        from result.end.input stuffing met_none result.end.plugins.items to result.end.output plan) }
    ensures ran { IsOk result.end.closed }
{
    // They run nothing: the proof cites them.
    nothing_is_told_at_first::<S, K, P>();
    what_was_told_is_right::<S, K, P>();
    let mut told = 0;
    let all_told = run_told_rounds(
        alloc,
        &mut run.chain,
        &mut lines,
        &mut told,
        sizes,
        gate,
        texts,
        printing,
        desk,
    );
    LiveEnd {
        end: end(run),
        all_told,
    }
}

/// Runs a chain in one thread, as `run_live` does, where the source of its input has lines too.
///
/// After each round the lines of the packets that were written are printed at the desk, with what the input's source says of these
/// positions, as the texts have it; nothing is reported where that is nothing.
pub fn run_telling<S: Source, K: Sink, P: Plugin, G: Gate, D: Desk, T: RoundTexts<S>>(
    alloc: Global,
    stages: Stages<S, K, P>,
    plan: &CorePlan,
    sizes: &[u32],
    gate: &G,
    texts: &mut T,
    printing: &mut Printing,
    desk: &mut D,
) -> LiveEnd<S, K, P>
    requires every { 1 ≤ stages.stuffing.every }
    requires unused { IsUnused stages.input }
    requires valid { IsValidPlan plan.now }
    requires plugins { plan.now.plugins ≡ vec_len stages.plugins }
    requires sizes { All (λ size. 1 ≤ size) sizes.now }
    requires some_size { 0 < length sizes.now }
    requires fresh { AreFresh (HeardStands P.rule P.stands_for) stages.plugins.items }
    ensures closed { (plugins : List NamedRule) (name_of : ℕ → List ℕ)
        → let see = seeing S.seen K.seen P.rule P.stands_for P.preallocated in
        map (heard_rule see) stages.plugins.items ≡ rules_of plugins → AreNames name_of 0 plugins
        → IfOk result.end.closed (LiveRounds see plugins name_of (PrintsRound D.seen T.writes)
        (texts.old, printing.old, desk.old) (texts.new, printing.new, desk.new) result.all_told
        stages.input result.end.input stages.stuffing stages.plugins.items result.end.plugins.items
        stages.output result.end.output plan.now) }
    ensures never_began { OnErr result.end.closed (NeverBegan stages.input result.end.input
        stages.plugins.items result.end.plugins.items stages.output result.end.output) }
    ensures silent { OnErr result.end.closed ((texts.new ≡ texts.old) × (printing.new ≡ printing.old) × (desk.new ≡ desk.old)) }
{
    let Ok(lines) = WaitingLines::new(alloc, plan.plugins) else {
        return never_ran(stages);
    };
    match begin(alloc, stages, plan) {
        Ok(run) => run_begun_telling(alloc, run, lines, sizes, gate, texts, printing, desk),
        Err(back) => never_ran(back),
    }
}
