//! The result of a play, in its own types: it has no plugin that could end it or run out of memory.
ghost use Rattle.std.specs.Prelude.{◌≡◌, [], IfOk, OnErr};
ghost use Rattle.chain_core.specs.declared.core_plan.CorePlan.{CorePlan};
ghost use Rattle.chain_core.specs.CoreNumbers.{IsValidPlan};
ghost use Rattle.stage_run.specs.Seeing.{seeing};
ghost use Rattle.stage_run.specs.declared.output_part.OutputPart.{OutputPart};
ghost use Rattle.chain_plays.specs.Played.{EndsPlay, HasPlayedOut, CutsPlay};
ghost use Rattle.chain_plays.specs.PlayList.{cause_of};

use chain_core::{Cause, Closed, InputEnd};
use chain_run::RunEnd;
use plugin_trait::Plugin;
use stage_run::{InputPart, OutputPart};
use std::alloc::AllocError;
use ts_outside::{Sink, Source};

/// Why a play ended: its input's list did, or the output did not take a packet whole.
#[derive(Debug, Clone, Copy, PartialEq, Eq)]
pub enum PlayEnd {
    /// The list of the file ended so, or a read failed; all packets before that were given.
    Input(InputEnd),
    /// The output failed after the packets that were counted.
    WriteFault,
}

/// How many packets of a play were written whole or counted, and why it ended after them.
#[derive(Debug, Clone, Copy, PartialEq, Eq)]
pub struct PlayCut {
    /// At most 2^60.
    pub count: u64,
    pub end: PlayEnd,
}

/// A play that was played, or for which there was no memory: its source and the output are returned.
pub struct PlayedOut<S, K> {
    /// The source, in the state that the play left.
    pub source: S,
    /// The output, in the state that the play left.
    pub output: OutputPart<K>,
    /// After an `AllocError` nothing was read or written.
    pub cut: Result<PlayCut, AllocError>,
}

/// The end of a play in its own type.
fn end_of(cause: Cause) -> PlayEnd
    requires { (end : PlayEnd) × (cause ≡ cause_of end) }
    ensures { cause_of result ≡ cause }
{
    match cause {
        Cause::Input(how) => PlayEnd::Input(how),
        Cause::WriteFault => PlayEnd::WriteFault,
        _ => unreachable!(),
    }
}

/// The cut of a play in its own type.
fn cut_of(closed: Closed) -> PlayCut
    requires { (end : PlayEnd) × (closed.cause ≡ cause_of end) }
    ensures { CutsPlay closed result }
{
    PlayCut {
        count: closed.cut,
        end: end_of(closed.cause),
    }
}

/// The result of a run of a play, which has no plugins.
pub(crate) fn played_out<S: Source, K: Sink, P: Plugin + Drop>(
    end: RunEnd<S, K, P>,
) -> PlayedOut<S, K>
    requires { (plan : CorePlan) × (source : S) × (to : OutputPart K)
        × EndsPlay (seeing S.seen K.seen P.rule P.stands_for P.preallocated) plan source to end }
    ensures { (plan : CorePlan) (source : S) (to : OutputPart K)
        → EndsPlay (seeing S.seen K.seen P.rule P.stands_for P.preallocated) plan source to end
        → HasPlayedOut S.seen K.seen plan.buffer source to result }
{
    let RunEnd {
        input,
        plugins: _,
        output,
        closed,
    } = end;
    let InputPart::Stream(source) = input else {
        unreachable!();
    };
    match closed {
        Ok(closed) => PlayedOut {
            source,
            output,
            cut: Ok(cut_of(closed)),
        },
        Err(AllocError) => PlayedOut {
            source,
            output,
            cut: Err(AllocError),
        },
    }
}
