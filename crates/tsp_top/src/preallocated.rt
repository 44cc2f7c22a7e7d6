//! A call at a desk that never fails.

ghost use Rattle.std.specs.Prelude.{◌≡◌, ◌⊎◌, ℕ, List, map, Some};
ghost use Rattle.std.specs.String.{string_bytes};
ghost use Rattle.chain_args.specs.PlanOf.{plan_of};
ghost use Rattle.chain_args.specs.declared.plan_type.Plan.{Plan};
ghost use Rattle.tsp_top.specs.Headline.{pure_status};
ghost use Rattle.tsp_top.specs.PlannedChain.{chain_of, input_of};
ghost use Rattle.tsp_top.specs.PlannedTables.{AreTables};
ghost use Rattle.ts_outside.specs.Preallocated.{preallocated_desk};
ghost use Rattle.tsp_top.specs.declared.status.Status.TheVariants.{NoMemory};

use crate::call::serial_call;
use crate::status::Status;
use crate::stream_law::headline;
use std::alloc::Global;
use ts_outside::{OpenGate, PreallocatedDesk};

/// Does what the words ask for at a desk that never fails, in one thread.
///
/// There the status is determined: where the words have a plan, and the files of its tables have these, the status is that of
/// the run without faults over the files of the desk, as the general options ask, unless memory ran out.
pub fn preallocated_call(alloc: Global, words: &[String], desk: &mut PreallocatedDesk) -> Status
    ensures { (plan : Plan) (tables : List (List (List ℕ))) → plan_of (map string_bytes words.now) ≡ Some plan
        → AreTables (preallocated_desk desk.old) plan.plugins tables
        → (result ≡ NoMemory) ⊎ (result ≡ pure_status plan.general (input_of plan.input desk.old.files).left_out
        (chain_of plan tables desk.old.files)) }
{
    headline();
    serial_call(alloc, words, desk, &OpenGate)
}
