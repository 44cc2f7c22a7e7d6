//! A run of a chain in threads: its memory, its stages with their seats in a ring, and the chain taken apart again.
ghost use Rattle.std.specs.Prelude.{◌≡◌, ◌≤◌, ◌<◌, ◌+◌, ◌++◌, ℕ, List, [], length, vec_len, vec_capacity, IfOk, OnErr, IsOk};
ghost use Rattle.chain_core.specs.declared.core_plan.CorePlan.{CorePlan};
ghost use Rattle.chain_core.specs.CoreNumbers.{IsValidPlan};
ghost use Rattle.plugin_trait.specs.HeardStands.{HeardStands};
ghost use Rattle.plugin_trait.specs.declared.heard.Heard.{Heard};
ghost use Rattle.stage_run.specs.Seeing.{seeing};
ghost use Rattle.stage_run.specs.declared.input_part.InputPart.{InputPart};
ghost use Rattle.stage_run.specs.declared.output_part.OutputPart.{OutputPart};
ghost use Rattle.stage_run.specs.declared.stuffing.Stuffing.{Stuffing};
ghost use Rattle.stage_run.specs.Parts.{IsUnused};
ghost use Rattle.chain_run.specs.Fresh.{AreFresh};
ghost use Rattle.chain_run.specs.NewRow.{IsNewRow};
ghost use Rattle.chain_run.specs.Runs.{RunStart, began_with};
ghost use Rattle.chain_run.specs.RunOf.{RunOf, NeverBegan};
ghost use Rattle.window_ring.specs.Opening.{IsNew};
ghost use Rattle.window_ring.specs.Seats.{key_of, table_of};
ghost use Rattle.window_ring.specs.Views.{root_view};
ghost use Rattle.window_ring.specs.declared.view.Key.{Key};
ghost use Rattle.chain_threads.specs.Beginning.{seated, parts_of, seats_of, AreNew};
ghost use Rattle.chain_threads.specs.Over.{AllHaveEnded};

use crate::laws::{run_laws, together};
use crate::{Stage, drive_all};
use atomic_table::Seat;
use chain_core::CorePlan;
use chain_run::{GivenBack, RunEnd, StageRooms, Stages, any_run, lay_stages, take_apart};
use plugin_trait::{Heard, Plugin};
use stage_run::{InputPart, IoBuffer, OutputPart, StagePart, Stuffing};
use std::alloc::{AllocError, Global};
use std::marker::{Send, Sync};
use std::sync::Wait;
use std::thread::Threads;
use ts_outside::{Gate, Sink, Source};
use window_ring::{NewRing, Ring, StageSeat, State, View, new_ring};

/// The memory of a run, but for that of the plugins: the rooms of its stages, an empty row with room for the stages with
/// their seats, and a new ring.
struct ThreadedMemory<S, K, P> {
    rooms: StageRooms<S, K, P>,
    stages: Vec<Stage<S, K, P>>,
    ring: NewRing,
}

impl<S, K, P> ThreadedMemory<S, K, P> {
    /// Takes the memory for a chain with this plan. After an `AllocError` no memory is held.
    fn new(alloc: Global, plan: &CorePlan) -> Result<ThreadedMemory<S, K, P>, AllocError>
        requires { IsValidPlan plan.now }
        ensures ring { IfOk result (λ memory. IsNew plan.now memory.ring) }
        ensures none { IfOk result (λ memory. memory.rooms.row.items ≡ []) }
        ensures room { IfOk result (λ memory. vec_capacity memory.rooms.row ≡ plan.now.plugins + 2) }
        ensures no_stage { IfOk result (λ memory. memory.stages.items ≡ []) }
        ensures stages { IfOk result (λ memory. vec_capacity memory.stages ≡ plan.now.plugins + 2) }
    {
        let window = plan.most.min(plan.buffer);
        let input = IoBuffer::new(alloc, window)?;
        let output = IoBuffer::new(alloc, window)?;
        let stages = Vec::with_capacity(alloc, plan.plugins + 2)?;
        let Ok(row) = Vec::with_capacity(alloc, plan.plugins + 2) else {
            stages.destroy_empty();
            return Err(AllocError);
        };
        // The last allocation: its seats can be given back only when their stages have ended.
        let Ok(ring) = new_ring(alloc, plan) else {
            stages.destroy_empty();
            row.destroy_empty();
            return Err(AllocError);
        };
        Ok(ThreadedMemory {
            rooms: StageRooms { input, output, row },
            stages,
            ring,
        })
    }
}

/// Appends to the stages each part with the seat at its place; there is room for them.
fn seat_all<S: Source, K: Sink, P: Plugin>(
    parts: &mut Vec<StagePart<S, K, P>>,
    seats: &mut Vec<StageSeat>,
    stages: &mut Vec<Stage<S, K, P>>,
)
    requires each { vec_len seats.old ≡ vec_len parts.old }
    requires room { vec_len stages.old + vec_len parts.old ≤ vec_capacity stages.old }
    ensures stages { stages.new.items ≡ stages.old.items ++ seated parts.old.items seats.old.items }
    ensures no_part { parts.new.items ≡ [] }
    ensures no_seat { seats.new.items ≡ [] }
    ensures parts_room { vec_capacity parts.new ≡ vec_capacity parts.old }
    ensures seats_room { vec_capacity seats.new ≡ vec_capacity seats.old }
{
    if parts.is_empty() {
        return;
    }
    let part = parts.remove(0);
    let seat = seats.remove(0);
    stages.push_reserved(Stage::of(part, seat));
    seat_all(parts, seats, stages);
}

/// Appends the part and the seat of each stage to the others; there is room for them.
pub fn unseat_all<S, K, P>(
    mut stages: Vec<Stage<S, K, P>>,
    parts: &mut Vec<StagePart<S, K, P>>,
    seats: &mut Vec<StageSeat>,
)
    requires parts { vec_len parts.old + vec_len stages ≤ vec_capacity parts.old }
    requires seats { vec_len seats.old + vec_len stages ≤ vec_capacity seats.old }
    ensures parts { parts.new.items ≡ parts.old.items ++ parts_of stages.items }
    ensures seats { seats.new.items ≡ seats.old.items ++ seats_of stages.items }
{
    if stages.len() == 0 {
        stages.destroy_empty();
        return;
    }
    let (part, seat) = stages.remove(0).into_parts();
    parts.push_reserved(part);
    seats.push_reserved(seat);
    unseat_all(stages, parts, seats);
}

/// Drives the stages of these parts and seats until all have ended, in the row, which has room for them.
fn drive_parts<
    R: Threads + Wait + Sync,
    S: Source + Send,
    K: Sink + Send,
    P: Plugin + Send,
    G: Gate,
>(
    rt: &R,
    ring: &Ring,
    parts: &mut Vec<StagePart<S, K, P>>,
    seats: &mut Vec<StageSeat>,
    mut stages: Vec<Stage<S, K, P>>,
    gate: &G,
)
    requires new { (begun : RunStart S K) × AreNew (seeing S.seen K.seen P.rule P.stands_for P.preallocated) begun ring.now
        parts.old.items seats.old.items }
    requires none { stages.items ≡ [] }
    requires room { vec_len parts.old ≤ vec_capacity stages }
    ensures { (begun : RunStart S K) → let see = seeing S.seen K.seen P.rule P.stands_for P.preallocated in
        AreNew see begun ring.now parts.old.items seats.old.items
        → AllHaveEnded see begun (key_of ring.now).base (table_of ring.now) seats.new.items parts.new.items }
{
    // It runs nothing: the proof cites it.
    run_laws::<S, K, P>();
    seat_all(parts, seats, &mut stages);
    drive_all(rt, ring, gate, &mut stages);
    unseat_all(stages, parts, seats);
}

/// Closes the ring of stages that have ended, and takes the chain apart. The plugins go into the row, which has room for
/// them.
pub fn end_run<S: Source, K: Sink, P: Plugin>(
    ring: Ring,
    root: Seat<State, View>,
    seats: Vec<StageSeat>,
    parts: Vec<StagePart<S, K, P>>,
    plugins: Vec<Heard<P>>,
) -> RunEnd<S, K, P>
    requires ended { (begun : RunStart S K) × ((key_of ring).plan ≡ begun.plan)
        × AllHaveEnded (seeing S.seen K.seen P.rule P.stands_for P.preallocated) begun (key_of ring).base (table_of ring)
        seats.items parts.items }
    requires words { (table_of ring).words ≡ 1 }
    requires slots { (table_of ring).slots ≡ 1 }
    requires of_table { root.table_id ≡ table_of ring }
    requires root { (made : ℕ) × (root.me ≡ (root_view (key_of ring) made [], [])) }
    requires none { plugins.items ≡ [] }
    requires room { vec_len parts ≤ vec_capacity plugins + 2 }
    ensures runs { (from : InputPart S) (stuffing : Stuffing) (met_none : List (Heard P)) (to : OutputPart K)
        (plan : CorePlan)
        → let see = seeing S.seen K.seen P.rule P.stands_for P.preallocated in
        (key_of ring).plan ≡ plan
        → AllHaveEnded see (began_with see from stuffing met_none to plan) (key_of ring).base (table_of ring)
        seats.items parts.items
        → IfOk result.closed
        (RunOf see from result.input stuffing met_none result.plugins.items to result.output plan) }
    ensures ran { IsOk result.closed }
{
    // They run nothing: the proof cites them.
    together::<S, K, P>();
    any_run::<S, K, P>();
    let closed = ring.close(root, seats);
    let GivenBack {
        input,
        plugins,
        output,
    } = take_apart(parts, plugins);
    RunEnd {
        input,
        plugins,
        output,
        closed: Ok(closed),
    }
}

/// Drives the stages of a chain until all have ended, and takes it apart. The plugins go into the row, which has room for
/// them.
fn run_laid<R: Threads + Wait + Sync, S: Source + Send, K: Sink + Send, P: Plugin + Send, G: Gate>(
    rt: &R,
    new: NewRing,
    mut parts: Vec<StagePart<S, K, P>>,
    stages: Vec<Stage<S, K, P>>,
    plugins: Vec<Heard<P>>,
    gate: &G,
) -> RunEnd<S, K, P>
    requires runs { (begun : RunStart S K)
        × IsNewRow (seeing S.seen K.seen P.rule P.stands_for P.preallocated) begun parts.items × IsNew begun.plan new }
    requires none { plugins.items ≡ [] }
    requires no_stage { stages.items ≡ [] }
    requires room { vec_len parts ≤ vec_capacity plugins + 2 }
    requires stages { vec_len parts ≤ vec_capacity stages }
    ensures runs { (from : InputPart S) (stuffing : Stuffing) (met_none : List (Heard P)) (to : OutputPart K)
        (plan : CorePlan)
        → let see = seeing S.seen K.seen P.rule P.stands_for P.preallocated in
        IsNewRow see (began_with see from stuffing met_none to plan) parts.items → IsNew plan new
        → IfOk result.closed
        (RunOf see from result.input stuffing met_none result.plugins.items to result.output plan) }
    ensures ran { IsOk result.closed }
{
    let NewRing {
        ring,
        root,
        mut seats,
    } = new;
    drive_parts(rt, &ring, &mut parts, &mut seats, stages, gate);
    end_run(ring, root, seats, parts, plugins)
}

/// Runs a chain with a thread for each stage, the caller's among them, and returns its parts. Where so many threads
/// cannot be started, all stages run in the caller's.
///
/// All memory but that of the plugins' steps is taken before the first read; where there is not enough, `closed` is
/// `AllocError` and nothing was done. It may wait; no clause says that it returns.
pub fn run_threads<
    R: Threads + Wait + Sync,
    S: Source + Send,
    K: Sink + Send,
    P: Plugin + Send,
    G: Gate,
>(rt: &R, alloc: Global, stages: Stages<S, K, P>, plan: &CorePlan, gate: &G) -> RunEnd<S, K, P>
    requires every { 1 ≤ stages.stuffing.every }
    requires unused { IsUnused stages.input }
    requires valid { IsValidPlan plan.now }
    requires plugins { plan.now.plugins ≡ vec_len stages.plugins }
    requires fresh { AreFresh (HeardStands P.rule P.stands_for) stages.plugins.items }
    ensures closed { IfOk result.closed (RunOf (seeing S.seen K.seen P.rule P.stands_for P.preallocated)
        stages.input result.input stages.stuffing stages.plugins.items result.plugins.items
        stages.output result.output plan.now) }
    ensures never_began { OnErr result.closed (NeverBegan stages.input result.input
        stages.plugins.items result.plugins.items stages.output result.output) }
{
    let Stages {
        input,
        stuffing,
        mut plugins,
        output,
    } = stages;
    let Ok(
        ThreadedMemory {
            rooms,
            stages,
            ring,
        },
    ) = ThreadedMemory::new(alloc, plan)
    else {
        return RunEnd {
            input,
            plugins,
            output,
            closed: Err(AllocError),
        };
    };
    let parts = lay_stages(rooms, input, stuffing, &mut plugins, output);
    run_laid(rt, ring, parts, stages, plugins, gate)
}
