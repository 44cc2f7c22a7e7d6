//! The law on orders.

ghost use Rattle.std.specs.Prelude.{◌≡◌, ◌≤◌, ℕ, suc, List, length};
ghost use Rattle.chain_model.specs.Apply.{StageList};
ghost use Rattle.chain_model.specs.Reports.{NamedRule, rules_of};
ghost use Rattle.chain_core.specs.declared.core_plan.CorePlan.{CorePlan};
ghost use Rattle.chain_core.specs.Machine.{Visit};
ghost use Rattle.chain_core.specs.ChainRun.{state_after, took};
ghost use Rattle.chain_core.specs.Keeps.{KeptRun};
ghost use Rattle.chain_live.specs.LiveReports.{lines_below, lines_to};

/// At every moment of every run, in whatever order the stages are served: of the positions that the output has given, the
/// lines by the cells that each plugin took are those of the run without faults.
pub fn every_order_prints_the_same()
    ensures { (plan : CorePlan) (plugins : List NamedRule) (input : StageList) (users : List ℕ) (visits : List Visit) (w : ℕ)
        → KeptRun plan (rules_of plugins) input visits
        → w ≤ length ((state_after plan visits).stages (suc plan.plugins)).given
        → lines_to (λ j. took (state_after plan visits) (suc j)) plugins w
        ≡ lines_below (record { input = input; plugins = plugins; users = users }) w }
{}
