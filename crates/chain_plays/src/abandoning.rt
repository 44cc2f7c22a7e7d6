//! A play that is not played: the seat of its output reports that it stops, and its input ends.
ghost use Rattle.std.specs.Prelude.{◌≡◌, ◌≤◌, suc, true, false};
ghost use Rattle.chain_core.specs.declared.core_plan.CorePlan.{CorePlan};
ghost use Rattle.chain_core.specs.CoreNumbers.{IsValidPlan};
ghost use Rattle.stage_run.specs.Seeing.{seeing};
ghost use Rattle.window_ring.specs.Seats.{key_of, table_of};
ghost use Rattle.window_ring.specs.Closing.{IsDone};
ghost use Rattle.std.specs.Prelude.{Option, Some};
ghost use Rattle.chain_model.specs.Stuffed.{no_stuffing};
ghost use Rattle.chain_core.specs.declared.stage_end.StageEnd.{StageEnd};
ghost use Rattle.stage_run.specs.PartLists.{PartLists};
ghost use Rattle.stage_run.specs.PartStands.{PartStands, kind_of, stream_kind, stuffing_in, an_input, a_stream};
ghost use Rattle.chain_plays.specs.Plays.{IsAhead};
ghost use Rattle.chain_plays.specs.Abandoned.{WasAbandoned};
ghost use Rattle.chain_plays.specs.Unvisited.{IsUnvisited};

use crate::ahead::AheadPlay;
use chain_core::{StageEnd, StageWord, one_visit};
use chain_threads::finish;
use plugin_trait::Plugin;
use stage_run::{InputPart, StagePart};
use std::sync::Wait;
use ts_outside::{Gate, Sink, Source};
use window_ring::{Ring, StageSeat, Visited, seat_laws};

/// The word of a stage that stops.
const STOP: StageWord = StageWord {
    agreed: None,
    ended: Some(StageEnd::Stop),
};

/// One try to report, by a seat's first visit, that its stage stops. Returns whether the visit was made.
fn stops(ring: &Ring, seat: &mut StageSeat) -> bool
    requires words { (table_of ring.now).words ≡ 1 }
    requires slots { (table_of ring.now).slots ≡ 1 }
    requires valid { IsValidPlan (key_of ring.now).plan }
    requires stage { seat.old.stage ≤ suc (key_of ring.now).plan.plugins }
    requires unvisited { IsUnvisited (key_of ring.now) (table_of ring.now) seat.old.stage seat.old }
    ensures told { result ≡ true → IsDone (key_of ring.now) (table_of ring.now) seat.old.stage seat.new }
    ensures again { result ≡ false → IsUnvisited (key_of ring.now) (table_of ring.now) seat.old.stage seat.new }
    ensures stage { seat.new.stage ≡ seat.old.stage }
{
    // They run nothing: the proof cites them.
    one_visit();
    seat_laws();
    match ring.visit(seat, 0, STOP) {
        Visited::Given(_) => true,
        Visited::Busy { holder: _ } => false,
    }
}

/// The first visit of a seat reports that its stage stops.
fn stop<R: Wait>(rt: &R, ring: &Ring, seat: &mut StageSeat)
    requires words { (table_of ring.now).words ≡ 1 }
    requires slots { (table_of ring.now).slots ≡ 1 }
    requires valid { IsValidPlan (key_of ring.now).plan }
    requires stage { seat.old.stage ≤ suc (key_of ring.now).plan.plugins }
    requires unvisited { IsUnvisited (key_of ring.now) (table_of ring.now) seat.old.stage seat.old }
    ensures { IsDone (key_of ring.now) (table_of ring.now) seat.old.stage seat.new }
{
    for _ in rt.forever() {
        if stops(ring, seat) {
            return;
        }
    }
}

/// Ends a play that is not played, and returns its source.
///
/// The output's seat reports that it stops, before it gave anything. Then the input, where it has not ended, reports its own end or
/// that it follows, and reads nothing more. Of the source some bytes were read, and at most one call failed, the last one.
/// The memory of the play is freed too. It may wait; no clause says that it returns.
pub fn abandon<R: Wait, S: Source, K: Sink, P: Plugin, G: Gate>(
    rt: &R,
    gate: &G,
    ahead: AheadPlay<S, K, P>,
) -> S
    requires { (plan : CorePlan) × (source : S)
        × IsAhead (seeing S.seen K.seen P.rule P.stands_for P.preallocated) plan source ahead }
    ensures { (plan : CorePlan) (source : S) → let see = seeing S.seen K.seen P.rule P.stands_for P.preallocated in
        IsAhead see plan source ahead → WasAbandoned (S.seen source) (S.seen result) }
{
    let AheadPlay {
        ring,
        root,
        mut seats,
        mut stages,
        parts,
        gather: _,
    } = ahead;
    parts.destroy_empty();
    let mut output = seats.remove(0);
    stop(rt, &ring, &mut output);
    finish(rt, &ring, gate, &mut stages);
    let (part, input) = stages.remove(0).into_parts();
    stages.destroy_empty();
    seats.push_reserved(input);
    seats.push_reserved(output);
    ring.close(root, seats);
    source_of(part)
}

/// The source of the input's stage, which has ended.
fn source_of<S: Source, K: Sink, P: Plugin>(part: StagePart<S, K, P>) -> S
    requires input { kind_of part ≡ an_input }
    requires stream { stream_kind part ≡ a_stream }
    ensures { (lists : PartLists) (told : Option StageEnd) → let see = seeing S.seen K.seen P.rule P.stands_for P.preallocated in
        PartStands see part lists told → stuffing_in part ≡ Some no_stuffing
        → WasAbandoned lists.source (S.seen result) }
{
    match part.into_input() {
        InputPart::Stream(source) => source,
        _ => unreachable!(),
    }
}
