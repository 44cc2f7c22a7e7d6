//! The laws of the ring. They run nothing.

ghost use Rattle.std.specs.Prelude.{ℕ, suc, List, ◌≤◌};
ghost use Rattle.chain_model.specs.PluginRule.{PluginRule};
ghost use Rattle.chain_model.specs.Apply.{StageList};
ghost use Rattle.chain_core.specs.declared.core_plan.CorePlan.{CorePlan};
ghost use Rattle.chain_core.specs.Machine.{Visit};
ghost use Rattle.chain_core.specs.ChainRun.{ChainRun};
ghost use Rattle.chain_core.specs.Keeps.{AllKeep};
ghost use Rattle.window_ring.specs.OneRun.{HasKept};
ghost use Rattle.window_ring.specs.SeatLaws.{SeatLaws};

use chain_core::one_visit;

/// What the stages promise one by one holds of the one run: where each stage made its own visits, in the
/// part of the run that its seat has seen, as its list says, all visits of the run are made so. `close`
/// gives the run and the parts, and `chain_core`'s `every_order` the lists, the cut and the cause. A law; it
/// runs nothing.
pub fn one_run()
    ensures { (plan : CorePlan) (rules : List PluginRule) (input : StageList) (history : List Visit)
        → ((k : ℕ) → k ≤ suc plan.plugins → HasKept plan rules input k history)
        → ChainRun plan history
        → AllKeep plan rules input history }
{}

/// What can be said of a seat, from its first visit on, holds again after each visit of its own and of others. A
/// law; it runs nothing.
pub fn seat_laws()
    ensures { SeatLaws }
{
    one_visit();
}
