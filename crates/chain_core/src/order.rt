//! The chain theorem, as a law.

ghost use Rattle.std.specs.Prelude.{List};
ghost use Rattle.chain_model.specs.PluginRule.{PluginRule};
ghost use Rattle.chain_model.specs.Apply.{StageList};
ghost use Rattle.chain_core.specs.declared.core_plan.CorePlan.{CorePlan};
ghost use Rattle.chain_core.specs.Machine.{Visit, progress_of_stages};
ghost use Rattle.chain_core.specs.ChainRun.{state_after, AllEnded};
ghost use Rattle.chain_core.specs.Keeps.{KeptRun};
ghost use Rattle.chain_core.specs.Close.{cut_at_close, cause_at_close};
ghost use Rattle.chain_core.specs.EveryOrder.{SoFar, AtClose};

/// The chain theorem. In every order of visits each stage gives a first part of its pure list, and
/// when all stages have ended, the cut, its cause and what the output gave are those of the run
/// without faults, or a fault ended the chain where it may.
pub fn every_order()
    ensures so_far { (plan : CorePlan) (rules : List PluginRule) (input : StageList) (visits : List Visit)
        → KeptRun plan rules input visits
        → SoFar plan rules input (state_after plan visits) }
    ensures at_close { (plan : CorePlan) (rules : List PluginRule) (input : StageList) (visits : List Visit)
        → KeptRun plan rules input visits
        → AllEnded plan (progress_of_stages (state_after plan visits))
        → AtClose plan rules input (state_after plan visits)
        (cut_at_close plan (progress_of_stages (state_after plan visits)))
        (cause_at_close plan (progress_of_stages (state_after plan visits))) }
{}
