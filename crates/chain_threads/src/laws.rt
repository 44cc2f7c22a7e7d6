//! The laws that the stages of a run in threads rest on. They run nothing.
ghost use Rattle.std.specs.Prelude.{List};
ghost use Rattle.cell_land.specs.declared.cell_window.Bases.{Bases};
ghost use Rattle.atomic_table.specs.Seated.{TableId};
ghost use Rattle.chain_core.specs.declared.closed.Closed.{Closed};
ghost use Rattle.stage_run.specs.Seeing.{seeing};
ghost use Rattle.stage_run.specs.declared.stage_part.StagePart.{StagePart};
ghost use Rattle.chain_run.specs.Runs.{RunStart};
ghost use Rattle.chain_run.specs.Ran.{HasClosed};
ghost use Rattle.window_ring.specs.declared.stage_seat.StageSeat.{StageSeat};
ghost use Rattle.window_ring.specs.Closing.{IsWhole, ClosedOf};
ghost use Rattle.chain_threads.specs.Standing.{key_at};
ghost use Rattle.chain_threads.specs.Over.{AllHaveEnded};
ghost use Rattle.chain_threads.specs.RunLaws.{RunLaws};

use chain_run::{machine_laws, one_stage};
use plugin_trait::Plugin;
use ts_outside::{Sink, Source};
use window_ring::{one_run, seat_laws};

/// The laws of the machine, of one stage and of its seat.
pub(crate) fn run_laws<S: Source, K: Sink, P: Plugin>()
    ensures { RunLaws (seeing S.seen K.seen P.rule P.stands_for P.preallocated) }
{
    machine_laws();
    one_stage::<S, K, P>();
    seat_laws();
}

/// What the single stages did is one run of the chain, in whatever order the threads served them: the ring of stages
/// that have ended can be closed, and the close is that of one run, in which each part stands for its list. `any_run` of
/// `chain_run` gives the result of this run. A law; it runs nothing.
pub fn together<S: Source, K: Sink, P: Plugin>()
    ensures whole { (begun : RunStart S K) (base : Bases) (table : TableId) (seats : List StageSeat)
        (parts : List (StagePart S K P))
        → AllHaveEnded (seeing S.seen K.seen P.rule P.stands_for P.preallocated) begun base table seats parts
        → IsWhole (key_at begun base) table seats }
    ensures closed { (begun : RunStart S K) (base : Bases) (table : TableId) (seats : List StageSeat)
        (parts : List (StagePart S K P)) (closed : Closed)
        → let see = seeing S.seen K.seen P.rule P.stands_for P.preallocated in
        AllHaveEnded see begun base table seats parts → ClosedOf (key_at begun base) seats closed
        → HasClosed see begun parts closed }
{
    run_laws::<S, K, P>();
    one_run();
}
