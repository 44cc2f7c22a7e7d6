//! What a chain told so far, from its begin to its end. Laws; they run nothing.
ghost use Rattle.std.specs.Prelude.{◌≡◌, ◌≤◌, ℕ, suc, List, [], map};
ghost use Rattle.ts_packet.specs.declared.cell.Cell.{Cell};
ghost use Rattle.chain_model.specs.Reports.{NamedRule, rules_of};
ghost use Rattle.chain_core.specs.Stages.{stages_of};
ghost use Rattle.chain_core.specs.declared.closed.Closed.{Closed};
ghost use Rattle.chain_core.specs.declared.core_plan.CorePlan.{CorePlan};
ghost use Rattle.chain_core.specs.CoreNumbers.{CoreNumbers, progress_of_core};
ghost use Rattle.plugin_trait.specs.declared.heard.Heard.{Heard};
ghost use Rattle.stage_run.specs.Seeing.{seeing};
ghost use Rattle.stage_run.specs.declared.input_part.InputPart.{InputPart};
ghost use Rattle.stage_run.specs.declared.output_part.OutputPart.{OutputPart};
ghost use Rattle.stage_run.specs.declared.stage_part.StagePart.{StagePart};
ghost use Rattle.stage_run.specs.declared.stuffing.Stuffing.{Stuffing};
ghost use Rattle.chain_live.specs.LiveReports.{lines_below};
ghost use Rattle.chain_rounds.specs.Round.{AreNames};
ghost use Rattle.chain_rounds.specs.Told.{shown};
ghost use Rattle.chain_rounds.specs.declared.told_line.ToldLine.{ToldLine};
ghost use Rattle.chain_run.specs.Runs.{RunStart, began_with, told_to};
ghost use Rattle.chain_run.specs.RunTold.{ClosesTold};
ghost use Rattle.chain_run.specs.Working.{IsRunning, RanOn};
ghost use Rattle.chain_tells.specs.Telling.{Tells};

use chain_run::machine_laws;
use plugin_trait::Plugin;
use ts_outside::{Sink, Source};

/// A chain that runs, and of which no line was taken away, has told nothing.
pub fn nothing_is_told_at_first<S: Source, K: Sink, P: Plugin>()
    ensures { (begun : RunStart S K) (plugins : List NamedRule) (name_of : ℕ → List ℕ) (core : CoreNumbers)
        (parts : List (StagePart S K P)) (cells : List Cell)
        → let see = seeing S.seen K.seen P.rule P.stands_for P.preallocated in
        begun.rules ≡ rules_of plugins → AreNames name_of 0 plugins
        → IsRunning see (told_to begun (λ _. 0)) core parts cells
        → Tells see begun plugins name_of (λ _. 0) 0 [] core parts cells }
{}

/// Where a chain runs on, what it told so far stays right.
pub fn a_round_tells_nothing<S: Source, K: Sink, P: Plugin>()
    ensures { (begun : RunStart S K) (plugins : List NamedRule) (name_of : ℕ → List ℕ) (taken : ℕ → ℕ) (w : ℕ) (told : List ToldLine)
        (core core_new : CoreNumbers) (parts parts_new : List (StagePart S K P)) (cells cells_new : List Cell)
        → let see = seeing S.seen K.seen P.rule P.stands_for P.preallocated in
        (tells : Tells see begun plugins name_of taken w told core parts cells)
        → RanOn see (told_to begun taken) tells.goes.runs.visits core_new parts_new cells_new
        → Tells see begun plugins name_of taken w told core_new parts_new cells_new }
{
    machine_laws();
}

/// After the end, what was told are the lines of the run without faults at positions before the cut: all of them, where the
/// lines were taken away up to what the output has given.
pub fn what_was_told_is_right<S: Source, K: Sink, P: Plugin>()
    ensures { (from made_from : InputPart S) (stuffing : Stuffing) (met_none made : List (Heard P))
        (to made_to : OutputPart K) (plan : CorePlan) (closed : Closed) (plugins : List NamedRule)
        (name_of : ℕ → List ℕ) (taken : ℕ → ℕ) (w : ℕ) (told : List ToldLine) (core : CoreNumbers)
        (parts : List (StagePart S K P)) (cells : List Cell)
        → let see = seeing S.seen K.seen P.rule P.stands_for P.preallocated in
        (tells : Tells see (began_with see from stuffing met_none to plan) plugins name_of taken w told core parts cells)
        → (closes : ClosesTold see taken tells.goes.runs.visits from made_from stuffing met_none made to made_to plan closed)
        → (w ≤ closed.cut)
        × ((w ≡ (progress_of_core core (suc plan.plugins)).given → w ≡ closed.cut)
        × (map (shown name_of) told ≡ lines_below (record {
          input = closes.run.list;
          plugins = plugins;
          users = stages_of plan.users;
        }) w)) }
{
    machine_laws();
}
