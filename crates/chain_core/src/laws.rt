//! Laws of the machine that the layers above build on. They run nothing.

ghost use Rattle.std.specs.Prelude.{◌≡◌, ◌≤◌, ℕ, List, ◌∷◌, length, Option, None};
ghost use Rattle.ts_packet.specs.declared.cell.Cell.{Cell};
ghost use Rattle.chain_model.specs.Prefix.{IsPrefix};
ghost use Rattle.chain_model.specs.PluginRule.{PluginRule};
ghost use Rattle.chain_model.specs.Apply.{StageList, apply};
ghost use Rattle.chain_model.specs.StageLists.{rule_after};
ghost use Rattle.chain_core.specs.declared.core_plan.CorePlan.{CorePlan};
ghost use Rattle.chain_core.specs.declared.stage_end.StageEnd.{StageEnd};
ghost use Rattle.chain_core.specs.Numbers.{UsersArePlugins};
ghost use Rattle.chain_core.specs.Machine.{ChainState, Visit, progress_of_stages, visited, Allowed};
ghost use Rattle.chain_core.specs.ChainRun.{ChainRun, state_after, AllEnded};
ghost use Rattle.chain_core.specs.Keeps.{KeepsList};
ghost use Rattle.chain_core.specs.Laws.{ChangesOneStage, LeavesOthers, NewsHold, NewsGrow, IsQuiet};

/// What one visit changes, and what it leaves: the other stages, and what they are about to do.
pub fn one_visit()
    ensures changes { (plan : CorePlan) (state : ChainState) (visit : Visit)
        → ChangesOneStage plan state (visited plan state visit) visit }
    ensures leaves { (plan : CorePlan) (visits : List Visit) (visit : Visit)
        → UsersArePlugins plan → ChainRun plan (visit ∷ visits)
        → LeavesOthers plan (state_after plan visits) (state_after plan (visit ∷ visits)) visit }
{}

/// What the news of every visit of every run promise.
pub fn news_promises()
    ensures hold { (plan : CorePlan) (visits : List Visit) (k : ℕ)
        → UsersArePlugins plan → ChainRun plan visits
        → NewsHold plan (state_after plan visits) k }
    ensures grow { (plan : CorePlan) (visits : List Visit) (visit : Visit)
        → UsersArePlugins plan → ChainRun plan (visit ∷ visits)
        → NewsGrow plan (state_after plan visits) (state_after plan (visit ∷ visits)) }
{}

/// Where nothing moves, every stage has ended: no run blocks itself.
pub fn quiet_is_over()
    ensures { (plan : CorePlan) (visits : List Visit)
        → UsersArePlugins plan → 1 ≤ plan.buffer → ChainRun plan visits
        → IsQuiet plan (state_after plan visits)
        → AllEnded plan (progress_of_stages (state_after plan visits)) }
{}

/// What a stage has done over the cells that it worked on, it has done over all that it took; and after
/// the last plugin every cell passes.
pub fn more_cells()
    ensures keeps { (rule : PluginRule) (met all given : List Cell) (plugins k : ℕ) (ended : Option StageEnd)
        → IsPrefix met all
        → KeepsList plugins k (apply rule met) given ended
        → KeepsList plugins k (apply rule all) given ended }
    ensures passes { (rules : List PluginRule) (cells : List Cell)
        → ((apply (rule_after rules (length rules)) cells).cells ≡ cells)
        × ((apply (rule_after rules (length rules)) cells).ended ≡ None) }
{}
