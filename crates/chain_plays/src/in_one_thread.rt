//! Plays in the caller's thread, one after another, of which none is read ahead.
ghost use Rattle.std.specs.Prelude.{◌≡◌};
ghost use Rattle.chain_core.specs.CoreNumbers.{IsValidPlan};
ghost use Rattle.chain_plays.specs.Played.{HasPlayedOut};

use crate::PlayedOut;
use crate::ahead::NO_STUFFING;
use crate::no_plugin::NoPlugin;
use crate::played::played_out;
use chain_core::CorePlan;
use chain_run::{Stages, run_serial};
use stage_run::{InputPart, OutputPart};
use std::alloc::Global;
use ts_outside::{Gate, Sink, Source};

/// A stage takes no more packets at a time than this.
const MOST_AT_A_TIME: usize = 1024;

/// Plays a source to its end in the caller's thread, and returns source and output.
///
/// It starts no thread and waits for none: it returns where the source and the sink do. Where there is not enough memory for
/// the run, nothing was read or written.
pub fn play_here<S: Source, K: Sink, G: Gate>(
    alloc: Global,
    gate: &G,
    plan: &CorePlan,
    source: S,
    output: OutputPart<K>,
) -> PlayedOut<S, K>
    requires valid { IsValidPlan plan.now }
    requires plugins { plan.now.plugins ≡ 0 }
    ensures { HasPlayedOut S.seen K.seen plan.now.buffer source output result }
{
    let sizes = [plan.most.min(MOST_AT_A_TIME) as u32];
    let stages: Stages<S, K, NoPlugin> = Stages {
        input: InputPart::Stream(source),
        stuffing: NO_STUFFING,
        plugins: Vec::new(alloc),
        output,
    };
    played_out(run_serial(alloc, stages, plan, &sizes, gate))
}
