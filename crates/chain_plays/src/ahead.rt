//! A play before it is played: its memory, and the stage of its input, which may read ahead.
ghost use Rattle.std.specs.Prelude.{◌≡◌, ◌+◌, ◌≤◌, [], length, vec_len, vec_capacity, IfOk, IfErr};
ghost use Rattle.chain_core.specs.CoreNumbers.{IsValidPlan};
ghost use Rattle.stage_run.specs.Seeing.{seeing};
ghost use Rattle.window_ring.specs.Opening.{IsNew};
ghost use Rattle.chain_plays.specs.Plays.{IsAhead};

use atomic_table::Seat;
use chain_core::CorePlan;
use chain_threads::Stage;
use plugin_trait::Plugin;
use stage_run::{InputPart, IoBuffer, StagePart, Stuffing};
use std::alloc::{AllocError, Global};
use ts_outside::{Sink, Source};
use window_ring::{NewRing, Ring, StageSeat, State, View, new_ring};

/// The stuffing of every play: no null packets are put in.
pub const NO_STUFFING: Stuffing = Stuffing {
    start: 0,
    stop: 0,
    null: 0,
    every: 1,
};

/// A play whose input is open: a ring of its own, the stage of its input, which may read ahead, and what its output will need.
///
/// It does not know the output, which joins the play when the play before it is over.
pub struct AheadPlay<S, K, P> {
    pub(crate) ring: Ring,
    pub(crate) root: Seat<State, View>,
    /// The seat of the output.
    pub(crate) seats: Vec<StageSeat>,
    /// The stage of the input.
    pub(crate) stages: Vec<Stage<S, K, P>>,
    /// Empty, with room for both parts.
    pub(crate) parts: Vec<StagePart<S, K, P>>,
    /// What the output will gather its packets in.
    pub(crate) gather: IoBuffer,
}

/// The memory of a play: what the input reads into and the output gathers in, two empty rows with room for both stages, and
/// a new ring.
struct PlayMemory<S, K, P> {
    input: IoBuffer,
    output: IoBuffer,
    stages: Vec<Stage<S, K, P>>,
    parts: Vec<StagePart<S, K, P>>,
    ring: NewRing,
}

impl<S, K, P> PlayMemory<S, K, P> {
    /// Takes the memory of a play with this plan. After an `AllocError` no memory is held.
    fn new(alloc: Global, plan: &CorePlan) -> Result<PlayMemory<S, K, P>, AllocError>
        requires { IsValidPlan plan.now }
        ensures ring { IfOk result (λ memory. IsNew plan.now memory.ring) }
        ensures no_stage { IfOk result (λ memory. memory.stages.items ≡ []) }
        ensures stages { IfOk result (λ memory. vec_capacity memory.stages ≡ 2) }
        ensures no_part { IfOk result (λ memory. memory.parts.items ≡ []) }
        ensures parts { IfOk result (λ memory. vec_capacity memory.parts ≡ 2) }
    {
        let window = plan.most.min(plan.buffer);
        let input = IoBuffer::new(alloc, window)?;
        let output = IoBuffer::new(alloc, window)?;
        let stages = Vec::with_capacity(alloc, 2)?;
        let Ok(parts) = Vec::with_capacity(alloc, 2) else {
            stages.destroy_empty();
            return Err(AllocError);
        };
        // The last allocation: its seats can be given back only when their stages have ended.
        let Ok(ring) = new_ring(alloc, plan) else {
            stages.destroy_empty();
            parts.destroy_empty();
            return Err(AllocError);
        };
        Ok(PlayMemory {
            input,
            output,
            stages,
            parts,
            ring,
        })
    }
}

/// The stage of an input with its seat, of which nothing was done.
fn seat_input<S: Source, K: Sink, P: Plugin>(
    memory: PlayMemory<S, K, P>,
    source: S,
) -> AheadPlay<S, K, P>
    requires ring { (plan : CorePlan) × IsValidPlan plan × IsNew plan memory.ring }
    requires no_stage { memory.stages.items ≡ [] }
    requires stages { vec_capacity memory.stages ≡ 2 }
    requires no_part { memory.parts.items ≡ [] }
    requires parts { vec_capacity memory.parts ≡ 2 }
    ensures { (plan : CorePlan) → IsValidPlan plan → plan.plugins ≡ 0 → IsNew plan memory.ring
        → IsAhead (seeing S.seen K.seen P.rule P.stands_for P.preallocated) plan source result }
{
    let PlayMemory {
        input,
        output,
        mut stages,
        parts,
        ring: NewRing {
            ring,
            root,
            mut seats,
        },
    } = memory;
    let seat = seats.remove(0);
    let part = StagePart::of_input(InputPart::Stream(source), NO_STUFFING, input);
    stages.push_reserved(Stage::of(part, seat));
    AheadPlay {
        ring,
        root,
        seats,
        stages,
        parts,
        gather: output,
    }
}

/// A play of a source, of which nothing was read yet.
///
/// All memory of the play is taken here. Where there is not enough, the source is returned and nothing is taken.
pub fn open_play<S: Source, K: Sink, P: Plugin>(
    alloc: Global,
    plan: &CorePlan,
    source: S,
) -> Result<AheadPlay<S, K, P>, S>
    requires valid { IsValidPlan plan.now }
    requires plugins { plan.now.plugins ≡ 0 }
    ensures ahead { IfOk result (λ play.
        IsAhead (seeing S.seen K.seen P.rule P.stands_for P.preallocated) plan.now source play) }
    ensures back { IfErr result (λ back. back ≡ source) }
{
    match PlayMemory::new(alloc, plan) {
        Ok(memory) => Ok(seat_input(memory, source)),
        Err(AllocError) => Err(source),
    }
}
