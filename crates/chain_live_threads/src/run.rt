//! A run in two threads that tells its lines while it goes: its memory, its stages with their seats in a ring, and its end.

ghost use Rattle.std.specs.Prelude.{◌≡◌, ◌≤◌, ◌<◌, ◌+◌, ◌++◌, ℕ, List, [], length, map, vec_len, vec_capacity, is_err, true, IfOk, OnErr, IsOk};
ghost use Rattle.std.specs.List.{All};
ghost use Rattle.chain_model.specs.Reports.{NamedRule, rules_of};
ghost use Rattle.chain_core.specs.declared.core_plan.CorePlan.{CorePlan};
ghost use Rattle.chain_core.specs.CoreNumbers.{IsValidPlan};
ghost use Rattle.plugin_trait.specs.HeardStands.{HeardStands};
ghost use Rattle.plugin_trait.specs.declared.heard.Heard.{Heard};
ghost use Rattle.stage_run.specs.Seeing.{seeing, heard_rule};
ghost use Rattle.stage_run.specs.declared.input_part.InputPart.{InputPart};
ghost use Rattle.stage_run.specs.declared.output_part.OutputPart.{OutputPart};
ghost use Rattle.stage_run.specs.declared.stuffing.Stuffing.{Stuffing};
ghost use Rattle.stage_run.specs.Parts.{IsUnused};
ghost use Rattle.chain_rounds.specs.Round.{AreNames};
ghost use Rattle.chain_run.specs.Fresh.{AreFresh};
ghost use Rattle.chain_run.specs.NewRow.{IsNewRow};
ghost use Rattle.chain_run.specs.Runs.{RunStart, began_with, told_to};
ghost use Rattle.chain_run.specs.RunOf.{NeverBegan};
ghost use Rattle.chain_tells.specs.Live.{LiveRun};
ghost use Rattle.chain_tells.specs.Printing.{PrintsLines};
ghost use Rattle.window_ring.specs.Opening.{IsNew};
ghost use Rattle.window_ring.specs.Seats.{key_of, table_of};
ghost use Rattle.chain_threads.specs.Beginning.{AreNew};
ghost use Rattle.chain_threads.specs.Over.{AllHaveEnded};
ghost use Rattle.chain_live_threads.specs.RowStages.{seated, parts_of, seats_of};
ghost use Rattle.chain_live_threads.specs.Ending.{SeatsHaveTold};

use crate::ending::end_told;
use crate::laws::run_laws;
use crate::live_stage::LiveStage;
use crate::telling::Telling;
use crate::two_threads::{can_start, drive_all};
use chain_core::CorePlan;
use chain_run::{RunEnd, StageRooms, Stages, lay_stages};
use chain_tells::{LineTexts, LiveEnd, Printing, WaitingLines, run_live};
use plugin_trait::{Heard, Plugin};
use stage_run::{IoBuffer, StagePart};
use std::alloc::{AllocError, Global};
use std::marker::{Send, Sync};
use std::sync::Wait;
use std::thread::Threads;
use ts_outside::{Desk, Gate, Sink, Source};
use window_ring::{NewRing, Ring, StageSeat, new_ring};

/// The memory of a run, but for that of the plugins: the rows of the lines that wait, the rooms of its stages, an empty row with
/// room for the stages with their seats, and a new ring.
struct ApartMemory<S, K, P> {
    lines: WaitingLines,
    rooms: StageRooms<S, K, P>,
    stages: Vec<LiveStage<S, K, P>>,
    ring: NewRing,
}

impl<S, K, P> ApartMemory<S, K, P> {
    /// Takes the memory for a chain with this plan. After an `AllocError` no memory is held.
    fn new(alloc: Global, plan: &CorePlan) -> Result<ApartMemory<S, K, P>, AllocError>
        requires { IsValidPlan plan.now }
        ensures ring { IfOk result (λ memory. IsNew plan.now memory.ring) }
        ensures lines { IfOk result (λ memory. length memory.lines.rows.items ≡ plan.now.plugins) }
        ensures none { IfOk result (λ memory. memory.rooms.row.items ≡ []) }
        ensures room { IfOk result (λ memory. vec_capacity memory.rooms.row ≡ plan.now.plugins + 2) }
        ensures no_stage { IfOk result (λ memory. memory.stages.items ≡ []) }
        ensures stages { IfOk result (λ memory. vec_capacity memory.stages ≡ plan.now.plugins + 2) }
    {
        let window = plan.most.min(plan.buffer);
        let lines = WaitingLines::new(alloc, plan.plugins)?;
        let input = IoBuffer::new(alloc, window)?;
        let output = IoBuffer::new(alloc, window)?;
        let stages = Vec::with_capacity(alloc, plan.plugins + 2)?;
        let Ok(row) = Vec::with_capacity(alloc, plan.plugins + 2) else {
            stages.destroy_empty();
            return Err(AllocError);
        };
        // The last allocation: its seats can be given back only when their stages have ended.
        let Ok(ring) = new_ring(alloc, plan) else {
            stages.destroy_empty();
            row.destroy_empty();
            return Err(AllocError);
        };
        Ok(ApartMemory {
            lines,
            rooms: StageRooms { input, output, row },
            stages,
            ring,
        })
    }
}

/// Appends to the stages each part with the seat at its place; there is room for them.
fn seat_all<S: Source, K: Sink, P: Plugin>(
    parts: &mut Vec<StagePart<S, K, P>>,
    seats: &mut Vec<StageSeat>,
    stages: &mut Vec<LiveStage<S, K, P>>,
)
    requires each { vec_len seats.old ≡ vec_len parts.old }
    requires room { vec_len stages.old + vec_len parts.old ≤ vec_capacity stages.old }
    ensures stages { stages.new.items ≡ stages.old.items ++ seated parts.old.items seats.old.items }
    ensures no_part { parts.new.items ≡ [] }
    ensures no_seat { seats.new.items ≡ [] }
    ensures parts_room { vec_capacity parts.new ≡ vec_capacity parts.old }
    ensures seats_room { vec_capacity seats.new ≡ vec_capacity seats.old }
{
    if parts.is_empty() {
        return;
    }
    let part = parts.remove(0);
    let seat = seats.remove(0);
    stages.push_reserved(LiveStage::of(part, seat));
    seat_all(parts, seats, stages);
}

/// Appends the part and the seat of each stage to the others; there is room for them.
fn unseat_all<S, K, P>(
    mut stages: Vec<LiveStage<S, K, P>>,
    parts: &mut Vec<StagePart<S, K, P>>,
    seats: &mut Vec<StageSeat>,
)
    requires parts { vec_len parts.old + vec_len stages ≤ vec_capacity parts.old }
    requires seats { vec_len seats.old + vec_len stages ≤ vec_capacity seats.old }
    ensures parts { parts.new.items ≡ parts.old.items ++ parts_of stages.items }
    ensures seats { seats.new.items ≡ seats.old.items ++ seats_of stages.items }
{
    if stages.len() == 0 {
        stages.destroy_empty();
        return;
    }
    let (part, seat) = stages.remove(0).into_parts();
    parts.push_reserved(part);
    seats.push_reserved(seat);
    unseat_all(stages, parts, seats);
}

/// Drives the stages of these parts and seats until all have ended, in the row, which has room for them, and tells their lines.
/// Returns what was told.
fn drive_parts<
    R: Threads + Wait + Sync,
    S: Source + Send,
    K: Sink + Send,
    P: Plugin + Send,
    G: Gate,
    D: Desk,
    L: LineTexts,
>(
    rt: &R,
    alloc: Global,
    ring: &Ring,
    parts: &mut Vec<StagePart<S, K, P>>,
    seats: &mut Vec<StageSeat>,
    mut stages: Vec<LiveStage<S, K, P>>,
    lines: WaitingLines,
    printing: Printing,
    gate: &G,
    texts: &L,
    desk: &mut D,
) -> Telling
    requires new { (begun : RunStart S K) × AreNew (seeing S.seen K.seen P.rule P.stands_for P.preallocated)
        (told_to begun (λ _. 0)) ring.now parts.old.items seats.old.items }
    requires none { stages.items ≡ [] }
    requires room { vec_len parts.old ≤ vec_capacity stages }
    requires rows { length lines.rows.items + 2 ≡ vec_len parts.old }
    ensures ended { (begun : RunStart S K) → let see = seeing S.seen K.seen P.rule P.stands_for P.preallocated in
        AreNew see (told_to begun (λ _. 0)) ring.now parts.old.items seats.old.items
        → AllHaveEnded see (told_to begun (λ _. result.told)) (key_of ring.now).base (table_of ring.now) seats.new.items parts.new.items }
    ensures told { (begun : RunStart S K) (plugins : List NamedRule) (name_of : ℕ → List ℕ)
        → let see = seeing S.seen K.seen P.rule P.stands_for P.preallocated in
        AreNew see (told_to begun (λ _. 0)) ring.now parts.old.items seats.old.items
        → begun.rules ≡ rules_of plugins → AreNames name_of 0 plugins
        → SeatsHaveTold see begun plugins name_of (PrintsLines D.seen (L.text_of texts.now)) (printing, desk.old)
        (result.printing, desk.new) result.told seats.new.items }
    ensures rows { length result.lines.rows.items ≡ length lines.rows.items }
{
    // It runs nothing: the proof cites it.
    run_laws::<S, K, P>();
    let mut telling = Telling {
        told: 0,
        lines,
        printing,
    };
    seat_all(parts, seats, &mut stages);
    drive_all(
        rt,
        alloc,
        ring,
        gate,
        &mut stages,
        &mut telling,
        texts,
        desk,
    );
    unseat_all(stages, parts, seats);
    telling
}

/// Drives the stages of a chain until all have ended, tells their lines meanwhile and after that, and takes the chain apart. The
/// plugins go into the row, which has room for them.
fn run_laid<
    R: Threads + Wait + Sync,
    S: Source + Send,
    K: Sink + Send,
    P: Plugin + Send,
    G: Gate,
    D: Desk,
    L: LineTexts,
>(
    rt: &R,
    alloc: Global,
    new: NewRing,
    mut parts: Vec<StagePart<S, K, P>>,
    stages: Vec<LiveStage<S, K, P>>,
    plugins: Vec<Heard<P>>,
    lines: WaitingLines,
    gate: &G,
    texts: &L,
    printing: &mut Printing,
    desk: &mut D,
) -> LiveEnd<S, K, P>
    requires runs { (from : InputPart S) × (stuffing : Stuffing) × (met_none : List (Heard P)) × (to : OutputPart K) × (plan : CorePlan)
        × IsNewRow (seeing S.seen K.seen P.rule P.stands_for P.preallocated)
        (began_with (seeing S.seen K.seen P.rule P.stands_for P.preallocated) from stuffing met_none to plan) parts.items
        × IsNew plan new }
    requires none { plugins.items ≡ [] }
    requires no_stage { stages.items ≡ [] }
    requires room { vec_len parts ≤ vec_capacity plugins + 2 }
    requires stages { vec_len parts ≤ vec_capacity stages }
    requires rows { length lines.rows.items + 2 ≡ vec_len parts }
    ensures closed { (plugins : List NamedRule) (name_of : ℕ → List ℕ) (from : InputPart S) (stuffing : Stuffing)
        (met_none : List (Heard P)) (to : OutputPart K) (plan : CorePlan)
        → let see = seeing S.seen K.seen P.rule P.stands_for P.preallocated in
        map (heard_rule see) met_none ≡ rules_of plugins → AreNames name_of 0 plugins
        → IsNewRow see (began_with see from stuffing met_none to plan) parts.items → IsNew plan new
        → IfOk result.end.closed (LiveRun see plugins name_of (PrintsLines D.seen (L.text_of texts.now)) (printing.old, desk.old) (printing.new, desk.new) result.all_told
        from result.end.input stuffing met_none result.end.plugins.items to result.end.output plan) }
    ensures ran { IsOk result.end.closed }
{
    let NewRing {
        ring,
        root,
        mut seats,
    } = new;
    let telling = drive_parts(
        rt, alloc, &ring, &mut parts, &mut seats, stages, lines, *printing, gate, texts, desk,
    );
    end_told(
        alloc, ring, root, seats, parts, plugins, telling, texts, printing, desk,
    )
}

/// Where there was no memory for a run, its stages come back.
fn never_ran<S, K, P>(stages: Stages<S, K, P>) -> LiveEnd<S, K, P>
    ensures never { NeverBegan stages.input result.end.input
        stages.plugins.items result.end.plugins.items stages.output result.end.output }
    ensures closed { is_err result.end.closed ≡ true }
{
    let Stages {
        input,
        stuffing: _,
        plugins,
        output,
    } = stages;
    LiveEnd {
        end: RunEnd {
            input,
            plugins,
            output,
            closed: Err(AllocError),
        },
        all_told: true,
    }
}

/// Runs a chain in two threads, tells the lines of its plugins while it runs, and returns its parts.
///
/// The input has a thread of its own, so that it reads on while the output rests, until the buffer is full; all other stages take
/// turns in the caller's. After each round of theirs the lines of the packets that were written are printed at the desk, in the
/// order of their positions and at one position in that of the plugins; nothing is reported where there are none. Where no thread
/// can be started, all stages run in the caller's, as `run_live` says, with these sizes.
///
/// The plugins come back with the lines that were not told, which are none but where memory ran out. The memory of the run, but for
/// that of the plugins' steps and lines, is taken before the first read; where there is not enough, `closed` is `AllocError` and
/// nothing was done. It may wait; no clause says that it returns.
pub fn run_apart<
    R: Threads + Wait + Sync,
    S: Source + Send,
    K: Sink + Send,
    P: Plugin + Send,
    G: Gate,
    D: Desk,
    L: LineTexts,
>(
    rt: &R,
    alloc: Global,
    stages: Stages<S, K, P>,
    plan: &CorePlan,
    sizes: &[u32],
    gate: &G,
    texts: &L,
    printing: &mut Printing,
    desk: &mut D,
) -> LiveEnd<S, K, P>
    requires every { 1 ≤ stages.stuffing.every }
    requires unused { IsUnused stages.input }
    requires valid { IsValidPlan plan.now }
    requires plugins { plan.now.plugins ≡ vec_len stages.plugins }
    requires sizes { All (λ size. 1 ≤ size) sizes.now }
    requires some_size { 0 < length sizes.now }
    requires fresh { AreFresh (HeardStands P.rule P.stands_for) stages.plugins.items }
    ensures closed { (plugins : List NamedRule) (name_of : ℕ → List ℕ)
        → let see = seeing S.seen K.seen P.rule P.stands_for P.preallocated in
        map (heard_rule see) stages.plugins.items ≡ rules_of plugins → AreNames name_of 0 plugins
        → IfOk result.end.closed (LiveRun see plugins name_of (PrintsLines D.seen (L.text_of texts.now)) (printing.old, desk.old) (printing.new, desk.new) result.all_told
        stages.input result.end.input stages.stuffing stages.plugins.items result.end.plugins.items
        stages.output result.end.output plan.now) }
    ensures never_began { OnErr result.end.closed (NeverBegan stages.input result.end.input
        stages.plugins.items result.end.plugins.items stages.output result.end.output) }
    ensures silent { OnErr result.end.closed ((printing.new ≡ printing.old) × (desk.new ≡ desk.old)) }
{
    if !can_start(rt) {
        return run_live(alloc, stages, plan, sizes, gate, texts, printing, desk);
    }
    let Ok(
        ApartMemory {
            lines,
            rooms,
            stages: row,
            ring,
        },
    ) = ApartMemory::new(alloc, plan)
    else {
        return never_ran(stages);
    };
    let Stages {
        input,
        stuffing,
        mut plugins,
        output,
    } = stages;
    let parts = lay_stages(rooms, input, stuffing, &mut plugins, output);
    run_laid(
        rt, alloc, ring, parts, row, plugins, lines, gate, texts, printing, desk,
    )
}
