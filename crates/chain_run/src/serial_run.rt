//! A run of a chain in one thread: its memory, its stages in a row, and the chain taken apart again.
ghost use Rattle.std.specs.Prelude.{◌≡◌, ◌≤◌, ◌<◌, ◌+◌, ℕ, List, [], length, vec_len, vec_capacity, IfOk, IfErr, OnErr, IsOk};
ghost use Rattle.std.specs.List.{All};
ghost use Rattle.chain_core.specs.declared.core_plan.CorePlan.{CorePlan};
ghost use Rattle.chain_core.specs.ChainRun.{AllEnded};
ghost use Rattle.chain_core.specs.CoreNumbers.{IsValidPlan, StandsFor, progress_of_core};
ghost use Rattle.chain_core.specs.Machine.{start};
ghost use Rattle.plugin_trait.specs.HeardStands.{HeardStands};
ghost use Rattle.plugin_trait.specs.declared.heard.Heard.{Heard};
ghost use Rattle.stage_run.specs.Seeing.{seeing};
ghost use Rattle.stage_run.specs.declared.input_part.InputPart.{InputPart};
ghost use Rattle.stage_run.specs.declared.output_part.OutputPart.{OutputPart};
ghost use Rattle.stage_run.specs.declared.stuffing.Stuffing.{Stuffing};
ghost use Rattle.stage_run.specs.Parts.{IsUnused};
ghost use Rattle.chain_run.specs.Fresh.{AreFresh};
ghost use Rattle.chain_run.specs.Runs.{began_with, told_to};
ghost use Rattle.chain_run.specs.Working.{IsRunning, RunsSomehow};
ghost use Rattle.chain_run.specs.RunOf.{RunOf, NeverBegan};
ghost use Rattle.chain_run.specs.RunTold.{ClosesTold};

use crate::cell_block::CellBlock;
use crate::laws::any_run;
use crate::parts::{GivenBack, StageRooms, lay_stages, take_apart};
use crate::serial_chain::SerialChain;
use crate::{RunEnd, Stages};
use chain_core::{Core, CorePlan};
use plugin_trait::{Heard, Plugin};
use stage_run::{InputPart, IoBuffer, OutputPart, Stuffing};
use std::alloc::{AllocError, Global};
use ts_outside::{Gate, Sink, Source};

/// The memory of a run, but for that of the plugins.
struct SerialMemory<S, K, P> {
    core: Core,
    cells: CellBlock,
    rooms: StageRooms<S, K, P>,
}

impl<S, K, P> SerialMemory<S, K, P> {
    /// Takes the memory for a chain with this plan. After an `AllocError` no memory is held.
    fn new(alloc: Global, plan: &CorePlan) -> Result<SerialMemory<S, K, P>, AllocError>
        requires { IsValidPlan plan.now }
        ensures plan { IfOk result (λ memory. memory.core.plan ≡ plan.now) }
        ensures fresh { IfOk result (λ memory. StandsFor memory.core start) }
        ensures cells { IfOk result (λ memory. length memory.cells.items ≡ plan.now.buffer) }
        ensures none { IfOk result (λ memory. memory.rooms.row.items ≡ []) }
        ensures room { IfOk result (λ memory. vec_capacity memory.rooms.row ≡ plan.now.plugins + 2) }
    {
        let window = plan.most.min(plan.buffer);
        let core = Core::new(alloc, plan)?;
        let input = IoBuffer::new(alloc, window)?;
        let output = IoBuffer::new(alloc, window)?;
        let cells = CellBlock::new(alloc, plan.buffer)?;
        let Ok(row) = Vec::with_capacity(alloc, plan.plugins + 2) else {
            cells.close();
            return Err(AllocError);
        };
        Ok(SerialMemory {
            core,
            cells,
            rooms: StageRooms { input, output, row },
        })
    }
}

/// Lays the stages in a row: the input, the plugins and the output. Nothing is read, met or written.
fn lay<S: Source, K: Sink, P: Plugin>(
    memory: SerialMemory<S, K, P>,
    input: InputPart<S>,
    stuffing: Stuffing,
    plugins: &mut Vec<Heard<P>>,
    output: OutputPart<K>,
) -> SerialChain<S, K, P>
    requires every { 1 ≤ stuffing.every }
    requires unused { IsUnused input }
    requires valid { IsValidPlan memory.core.plan }
    requires plugins { memory.core.plan.plugins ≡ vec_len plugins.old }
    requires fresh { AreFresh (HeardStands P.rule P.stands_for) plugins.old.items }
    requires numbers { StandsFor memory.core start }
    requires slots { length memory.cells.items ≡ memory.core.plan.buffer }
    requires none { memory.rooms.row.items ≡ [] }
    requires room { vec_capacity memory.rooms.row ≡ memory.core.plan.plugins + 2 }
    ensures runs { let see = seeing S.seen K.seen P.rule P.stands_for P.preallocated in
        IsRunning see (began_with see input stuffing plugins.old.items output memory.core.plan)
        result.core result.parts.items result.cells.items }
    ensures none_left { plugins.new.items ≡ [] }
    ensures room_left { vec_capacity plugins.new ≡ vec_capacity plugins.old }
{
    let SerialMemory { core, cells, rooms } = memory;
    let parts = lay_stages(rooms, input, stuffing, plugins, output);
    SerialChain { core, parts, cells }
}

/// A chain that was begun, and the row into which its plugins return.
pub struct SerialRun<S, K, P> {
    pub chain: SerialChain<S, K, P>,
    /// Empty, with room for the plugins.
    pub plugins: Vec<Heard<P>>,
}

/// Begins a run in one thread: takes its memory and lays its stages in a row. Nothing is read, met or written. Where there is
/// not enough memory the stages come back as they were.
pub fn begin<S: Source, K: Sink, P: Plugin>(
    alloc: Global,
    stages: Stages<S, K, P>,
    plan: &CorePlan,
) -> Result<SerialRun<S, K, P>, Stages<S, K, P>>
    requires every { 1 ≤ stages.stuffing.every }
    requires unused { IsUnused stages.input }
    requires valid { IsValidPlan plan.now }
    requires plugins { plan.now.plugins ≡ vec_len stages.plugins }
    requires fresh { AreFresh (HeardStands P.rule P.stands_for) stages.plugins.items }
    ensures runs { let see = seeing S.seen K.seen P.rule P.stands_for P.preallocated in
        IfOk result (λ run. IsRunning see
        (began_with see stages.input stages.stuffing stages.plugins.items stages.output plan.now)
        run.chain.core run.chain.parts.items run.chain.cells.items) }
    ensures none { IfOk result (λ run. run.plugins.items ≡ []) }
    ensures room { IfOk result (λ run. length run.chain.parts.items ≤ vec_capacity run.plugins + 2) }
    ensures as_they_were { IfErr result (λ back. back ≡ stages) }
{
    let Ok(memory) = SerialMemory::new(alloc, plan) else {
        return Err(stages);
    };
    let Stages {
        input,
        stuffing,
        mut plugins,
        output,
    } = stages;
    let chain = lay(memory, input, stuffing, &mut plugins, output);
    Ok(SerialRun { chain, plugins })
}

/// Ends a run of which all stages have ended: closes it and takes it apart.
pub fn end<S: Source, K: Sink, P: Plugin>(run: SerialRun<S, K, P>) -> RunEnd<S, K, P>
    requires runs { RunsSomehow (seeing S.seen K.seen P.rule P.stands_for P.preallocated) run.chain }
    requires none { run.plugins.items ≡ [] }
    requires room { length run.chain.parts.items ≤ vec_capacity run.plugins + 2 }
    requires over { AllEnded run.chain.core.plan (progress_of_core run.chain.core) }
    ensures runs { (from : InputPart S) (stuffing : Stuffing) (met_none : List (Heard P)) (to : OutputPart K)
        (plan : CorePlan)
        → let see = seeing S.seen K.seen P.rule P.stands_for P.preallocated in
        IsRunning see (began_with see from stuffing met_none to plan)
        run.chain.core run.chain.parts.items run.chain.cells.items
        → IfOk result.closed
        (RunOf see from result.input stuffing met_none result.plugins.items to result.output plan) }
    ensures told { (from : InputPart S) (stuffing : Stuffing) (met_none : List (Heard P)) (to : OutputPart K)
        (plan : CorePlan) (told : ℕ → ℕ)
        → let see = seeing S.seen K.seen P.rule P.stands_for P.preallocated in
        (goes : IsRunning see (told_to (began_with see from stuffing met_none to plan) told)
        run.chain.core run.chain.parts.items run.chain.cells.items)
        → IfOk result.closed (ClosesTold see told goes.runs.visits
        from result.input stuffing met_none result.plugins.items to result.output plan) }
    ensures ran { IsOk result.closed }
{
    // It runs nothing: the proof cites it.
    any_run::<S, K, P>();
    let SerialRun { chain, plugins } = run;
    let SerialChain { core, parts, cells } = chain;
    cells.close();
    let closed = core.close();
    let GivenBack {
        input,
        plugins,
        output,
    } = take_apart(parts, plugins);
    RunEnd {
        input,
        plugins,
        output,
        closed: Ok(closed),
    }
}

/// Runs a chain until all its stages have ended, and takes it apart. The plugins go into the row, which has room for them.
fn run_laid<S: Source, K: Sink, P: Plugin, G: Gate>(
    mut run: SerialRun<S, K, P>,
    sizes: &[u32],
    gate: &G,
) -> RunEnd<S, K, P>
    requires runs { RunsSomehow (seeing S.seen K.seen P.rule P.stands_for P.preallocated) run.chain }
    requires none { run.plugins.items ≡ [] }
    requires room { length run.chain.parts.items ≤ vec_capacity run.plugins + 2 }
    requires sizes { All (λ size. 1 ≤ size) sizes.now }
    requires some_size { 0 < length sizes.now }
    ensures runs { (from : InputPart S) (stuffing : Stuffing) (met_none : List (Heard P)) (to : OutputPart K)
        (plan : CorePlan)
        → let see = seeing S.seen K.seen P.rule P.stands_for P.preallocated in
        IsRunning see (began_with see from stuffing met_none to plan)
        run.chain.core run.chain.parts.items run.chain.cells.items
        → IfOk result.closed
        (RunOf see from result.input stuffing met_none result.plugins.items to result.output plan) }
    ensures ran { IsOk result.closed }
{
    run.chain.run(sizes, gate);
    end(run)
}

/// Runs a chain in one thread, its stages in turn, and returns its parts.
///
/// The i-th turn works on at most as many cells as `sizes` has at i modulo its length. All memory but that of the
/// plugins' steps is taken before the first read; where there is not enough, `closed` is `AllocError` and nothing was done.
pub fn run_serial<S: Source, K: Sink, P: Plugin, G: Gate>(
    alloc: Global,
    stages: Stages<S, K, P>,
    plan: &CorePlan,
    sizes: &[u32],
    gate: &G,
) -> RunEnd<S, K, P>
    requires every { 1 ≤ stages.stuffing.every }
    requires unused { IsUnused stages.input }
    requires valid { IsValidPlan plan.now }
    requires plugins { plan.now.plugins ≡ vec_len stages.plugins }
    requires sizes { All (λ size. 1 ≤ size) sizes.now }
    requires some_size { 0 < length sizes.now }
    requires fresh { AreFresh (HeardStands P.rule P.stands_for) stages.plugins.items }
    ensures closed { IfOk result.closed (RunOf (seeing S.seen K.seen P.rule P.stands_for P.preallocated)
        stages.input result.input stages.stuffing stages.plugins.items result.plugins.items
        stages.output result.output plan.now) }
    ensures never_began { OnErr result.closed (NeverBegan stages.input result.input
        stages.plugins.items result.plugins.items stages.output result.output) }
{
    match begin(alloc, stages, plan) {
        Ok(run) => run_laid(run, sizes, gate),
        Err(
            Stages {
                input,
                stuffing: _,
                plugins,
                output,
            },
        ) => RunEnd {
            input,
            plugins,
            output,
            closed: Err(AllocError),
        },
    }
}
