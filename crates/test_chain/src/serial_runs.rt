//! Tests of chains that run in one thread.
ghost use Rattle.std.specs.Prelude.{◌≡◌, ◌≤◌, length, IfOk};
ghost use Rattle.std.specs.List.{All};
ghost use Rattle.chain_core.specs.CoreNumbers.{IsValidPlan};

use crate::compared::same;
use crate::stops_at::{StopsAt, stopping};
use chain_core::{Cause, Closed, CorePlan, InputEnd, StageSet};
use chain_run::{RunEnd, Stages, run_serial};
use stage_run::{InputPart, OutputPart, Stuffing};
use std::alloc::{AllocError, Global};
use std::test::Fail;
use ts_outside::{Desk, FailPlan, FileList, MemoryDesk, MemorySink, MemorySource, OpenGate};

/// A desk without files, on which no call fails.
fn desk(alloc: Global) -> Result<Box<MemoryDesk>, AllocError> {
    let files = FileList::of(Vec::new(alloc));
    let plan = FailPlan::none(alloc, 1000, 1000, 1000);
    Ok(Box::new(alloc, MemoryDesk::new(alloc, files, plan)?)?)
}

/// The cut and the cause of a chain; what was opened is given back to the desk.
fn closed_of(
    desk: &mut MemoryDesk,
    end: RunEnd<MemorySource, MemorySink, StopsAt>,
) -> Result<Closed, AllocError> {
    let RunEnd {
        input,
        plugins: _,
        output,
        closed,
    } = end;
    match input {
        InputPart::Stream(source) => desk.close_in(source),
        InputPart::Nulls(_) => {}
        InputPart::Generated {
            generator: _,
            packets: _,
        } => {}
    }
    match output {
        OutputPart::Stream(sink) => {
            let _ = desk.close_out(sink);
        }
        OutputPart::Discard => {}
    }
    closed
}

/// Passes `packets` null packets through a plugin that stops at a position, to an output that drops them.
fn run(
    alloc: Global,
    packets: u64,
    position: u64,
    buffer: usize,
    sizes: &[u32],
) -> Result<Closed, AllocError>
    requires some_buffer { 1 ≤ buffer }
    requires buffer { buffer ≤ 1000000 }
    requires sizes { All (λ size. 1 ≤ size) sizes.now }
    requires some_size { 1 ≤ length sizes.now }
{
    let mut plugins = Vec::new(alloc);
    plugins.push(stopping(alloc, position))?;
    let mut desk = desk(alloc)?;
    let input: InputPart<MemorySource> = InputPart::Nulls(packets);
    let output: OutputPart<MemorySink> = OutputPart::Discard;
    let stuffing = Stuffing {
        start: 1,
        stop: 1,
        null: 0,
        every: 1,
    };
    let plan = CorePlan {
        plugins: 1,
        buffer,
        most: 2,
        users: StageSet::none(),
    };
    let stages = Stages {
        input,
        stuffing,
        plugins,
        output,
    };
    let end = run_serial(alloc, stages, &plan, sizes, &OpenGate);
    closed_of(&mut *desk, end)
}

/// The input's end and the plugin's stop, with several sizes.
#[test]
fn a_run_ends_by_its_input_or_its_plugin(rt: HostRuntime) -> Result<(), Fail> {
    let whole = run(rt.alloc(), 5, 100, 3, &[1, 3, 2])?;
    let cause = Cause::Input(InputEnd::End { left: 0 });
    same(&rt, whole, Closed { cut: 7, cause });
    let stopped = run(rt.alloc(), 5, 4, 1, &[1])?;
    let cause = Cause::Stop(1);
    same(&rt, stopped, Closed { cut: 4, cause });
    Ok(())
}
