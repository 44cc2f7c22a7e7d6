//! The laws of one stage of a run. They run nothing.
ghost use Rattle.stage_run.specs.Seeing.{seeing};
ghost use Rattle.chain_run.specs.StageLaws.{StageLaws};

use crate::machine_laws;
use plugin_trait::Plugin;
use ts_outside::{Sink, Source};

/// What can be said of one stage of a run, whoever serves it: what it stands for does not change while others visit, its part may
/// work after each visit, and what it worked on it may give with the next one. A law; it runs nothing.
pub fn one_stage<S: Source, K: Sink, P: Plugin>()
    ensures { StageLaws (seeing S.seen K.seen P.rule P.stands_for P.preallocated) }
{
    machine_laws();
}
