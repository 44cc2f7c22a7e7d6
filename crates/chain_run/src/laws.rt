//! The laws that a run rests on. They run nothing.
ghost use Rattle.std.specs.Prelude.{ℕ, List};
ghost use Rattle.chain_core.specs.declared.closed.Closed.{Closed};
ghost use Rattle.chain_core.specs.declared.core_plan.CorePlan.{CorePlan};
ghost use Rattle.plugin_trait.specs.declared.heard.Heard.{Heard};
ghost use Rattle.stage_run.specs.Seeing.{seeing};
ghost use Rattle.stage_run.specs.declared.input_part.InputPart.{InputPart};
ghost use Rattle.stage_run.specs.declared.output_part.OutputPart.{OutputPart};
ghost use Rattle.stage_run.specs.declared.stage_part.StagePart.{StagePart};
ghost use Rattle.stage_run.specs.declared.stuffing.Stuffing.{Stuffing};
ghost use Rattle.chain_run.specs.Laws.{MachineLaws};
ghost use Rattle.chain_run.specs.Parts.{AreStages, GaveBack};
ghost use Rattle.chain_run.specs.Runs.{RunStart, began_with, told_to};
ghost use Rattle.chain_run.specs.Ran.{Ran, HasClosed};
ghost use Rattle.chain_run.specs.RunOf.{RunOf};
ghost use Rattle.chain_run.specs.RunTold.{ClosesTold};

use chain_core::{every_order, more_cells, news_promises, one_visit, quiet_is_over};
use plugin_trait::Plugin;
use ts_outside::{Sink, Source};

/// What holds of every run of the machine, in whatever order its stages are served. A law; it runs nothing.
pub fn machine_laws()
    ensures { MachineLaws }
{
    one_visit();
    news_promises();
    quiet_is_over();
    more_cells();
    every_order();
}

/// The result of any run, whoever served its stages. Its parts are the stages of a chain, which `take_apart` takes
/// apart. Where all stages have ended, the cut and the cause are the machine's, and the parts returned what they
/// held, the run is what `RunOf` says, and what `ClosesTold` says where lines were taken away meanwhile. A law; it runs nothing.
pub fn any_run<S: Source, K: Sink, P: Plugin>()
    ensures stages { (begun : RunStart S K) (parts : List (StagePart S K P))
        → let see = seeing S.seen K.seen P.rule P.stands_for P.preallocated in
        Ran see begun parts → AreStages see parts }
    ensures ends { (from made_from : InputPart S) (stuffing : Stuffing) (plugins made : List (Heard P))
        (to made_to : OutputPart K) (plan : CorePlan) (closed : Closed) (parts : List (StagePart S K P))
        → let see = seeing S.seen K.seen P.rule P.stands_for P.preallocated in
        let begun = began_with see from stuffing plugins to plan in
        HasClosed see begun parts closed → GaveBack see parts made_from made made_to
        → RunOf see from made_from stuffing plugins made to made_to plan closed }
    ensures told { (from made_from : InputPart S) (stuffing : Stuffing) (plugins made : List (Heard P))
        (to made_to : OutputPart K) (plan : CorePlan) (closed : Closed) (parts : List (StagePart S K P)) (told : ℕ → ℕ)
        → let see = seeing S.seen K.seen P.rule P.stands_for P.preallocated in
        let begun = told_to (began_with see from stuffing plugins to plan) told in
        (has : HasClosed see begun parts closed) → GaveBack see parts made_from made made_to
        → ClosesTold see told has.ran.visits from made_from stuffing plugins made to made_to plan closed }
{
    machine_laws();
}
