//! The laws that the stages of a run in two threads rest on. They run nothing.
ghost use Rattle.stage_run.specs.Seeing.{seeing};
ghost use Rattle.chain_threads.specs.RunLaws.{RunLaws};

use chain_run::{machine_laws, one_stage};
use plugin_trait::Plugin;
use ts_outside::{Sink, Source};
use window_ring::seat_laws;

/// The laws of the machine, of one stage and of its seat.
pub(crate) fn run_laws<S: Source, K: Sink, P: Plugin>()
    ensures { RunLaws (seeing S.seen K.seen P.rule P.stands_for P.preallocated) }
{
    machine_laws();
    one_stage::<S, K, P>();
    seat_laws();
}
