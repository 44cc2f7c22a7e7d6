//! The plays of a plan: the output is opened, the inputs are played, and the plays are reported.
ghost use Rattle.std.specs.Prelude.{◌≡◌, ◌<◌, ◌≤◌, ℕ, List, Some, IfOk, length};
ghost use Rattle.chain_core.specs.declared.core_plan.CorePlan.{CorePlan};
ghost use Rattle.ts_outside.specs.OpenFault.{MatchOpen};
ghost use Rattle.ts_outside.specs.Desk.{asked_in_vain};
ghost use Rattle.ts_outside.specs.declared.requests.Purpose.TheVariants.{Output};
ghost use Rattle.switch_top.specs.Nexts.{kind_of};
ghost use Rattle.switch_top.specs.PlayNames.{rows_of};
ghost use Rattle.switch_top.specs.SoFar.{AreAllPlayed};
ghost use Rattle.switch_top.specs.SwitchEnds.{SwitchesPlan, output_name, opened_as};
ghost use Rattle.switch_top.specs.OutputKept.{IsOutputOf};
ghost use Rattle.switch_args.specs.Readings.{output_of};

use crate::ending::finish_plays;
use crate::lines::push_line;
use crate::plan::{BATCH, SwitchPlan};
use crate::play_source::PlaySource;
use crate::played_cut::{PlayedCut, PlayedEnd};
use crate::plays_left::PlaysLeft;
use crate::status::SwitchStatus;
use crate::stepping::{AllPlayed, Switched, Switching, play_all};
use crate::switching::{NextPlay, open_next};
use chain_core::{CorePlan, StageSet};
use chain_plays::{AheadPlay, NoPlugin, OpenPlay};
use stage_run::OutputPart;
use std::alloc::{AllocError, Global};
use std::marker::Sync;
use std::sync::Wait;
use std::thread::Threads;
use switch_args::SwitchOutput;
use ts_outside::{Desk, Gate, OpenFault, Source, say};

/// Opens the first input and plays it, and those after it.
fn play_from_first<R: Threads + Wait + Sync, D: Desk, G: Gate>(
    rt: &R,
    alloc: Global,
    gate: &G,
    desk: &mut D,
    plan: &SwitchPlan,
    output: OutputPart<D::Out>,
) -> AllPlayed<D::Out>
    requires some { 0 < length plan.now.inputs.items }
    requires few { length plan.now.inputs.items ≤ 32 }
    requires cycle { plan.now.cycle ≤ 1000 }
    requires buffer { (1 ≤ plan.now.buffer) × (plan.now.buffer ≤ 1000000) }
    ensures { (core : CorePlan) × (core.buffer ≡ plan.now.buffer)
        × AreAllPlayed (kind_of plan.now.resync ⟦<PlaySource<D::In> as Source>⟧.seen D.Out.seen
        ⟦<AheadPlay<PlaySource<D::In>, D::Out, NoPlugin> as OpenPlay<PlaySource<D::In>>>⟧.is_open) core
        plan.now.inputs.items (rows_of plan.now.cycle plan.now.inputs.items)
        (D.seen desk.old) output result (D.seen desk.new) }
{
    let core = CorePlan {
        plugins: 0,
        buffer: plan.buffer,
        most: BATCH,
        users: StageSet::none(),
    };
    let inputs = plan.inputs.as_slice();
    let mut left = PlaysLeft {
        at: inputs.len(),
        rows: plan.cycle,
    };
    let mut text = String::new(alloc);
    match open_next(alloc, desk, &core, plan.resync, inputs, &mut left) {
        Ok(NextPlay::NoMore) => AllPlayed::Wants(output),
        Ok(NextPlay::Open { input, play }) => play_all(
            rt,
            alloc,
            gate,
            desk,
            &core,
            plan.resync,
            inputs,
            Switching {
                left,
                input,
                now: play,
                output,
                count: 0,
                text,
            },
        ),
        Ok(NextPlay::Failed { input }) => {
            let cut = PlayedCut {
                count: 0,
                end: PlayedEnd::ReadFault,
            };
            if push_line(&mut text, alloc, input, &cut).is_err() {
                return AllPlayed::Wants(output);
            }
            AllPlayed::Over(Switched {
                output,
                count: 0,
                text,
                input,
                end: cut.end,
            })
        }
        Err(AllocError) => AllPlayed::Wants(output),
    }
}

/// Opens the output, unless packets are dropped.
fn open_output<D: Desk>(desk: &mut D, to: &SwitchOutput) -> Result<OutputPart<D::Out>, OpenFault>
    ensures asked { MatchOpen result
        (λ _. D.seen desk.new ≡ opened_as (D.seen desk.old) (output_name (output_of to.now)))
        ((name : List ℕ) × (output_name (output_of to.now) ≡ Some name) × (D.seen desk.new ≡ asked_in_vain (D.seen desk.old) Output name))
        (D.seen desk.new ≡ D.seen desk.old) }
    ensures part { IfOk result (λ part. IsOutputOf D.Out.seen (opened_as (D.seen desk.old) (output_name (output_of to.now)))
        (output_name (output_of to.now)) part) }
{
    match to {
        SwitchOutput::Drop => Ok(OutputPart::Discard),
        SwitchOutput::File(name) => Ok(OutputPart::Stream(desk.open_out(Some(name.as_str()))?)),
    }
}

/// Plays the inputs of a plan, one after another.
pub fn switch_plan<R: Threads + Wait + Sync, D: Desk, G: Gate>(
    rt: &R,
    alloc: Global,
    plan: &SwitchPlan,
    desk: &mut D,
    gate: &G,
) -> SwitchStatus
    requires some { 0 < length plan.now.inputs.items }
    requires few { length plan.now.inputs.items ≤ 32 }
    requires cycle { plan.now.cycle ≤ 1000 }
    requires buffer { (1 ≤ plan.now.buffer) × (plan.now.buffer ≤ 1000000) }
    ensures { SwitchesPlan plan.now.resync plan.now.buffer (rows_of plan.now.cycle plan.now.inputs.items) (output_name (output_of plan.now.output))
        (D.seen desk.old) (D.seen desk.new) result }
{
    match open_output(desk, &plan.output) {
        Ok(output) => {
            let played = play_from_first(rt, alloc, gate, desk, plan, output);
            finish_plays::<D, AheadPlay<PlaySource<D::In>, D::Out, NoPlugin>>(alloc, desk, played)
        }
        Err(OpenFault::Failed) => {
            say(desk, "tsswitch: cannot open output\n");
            SwitchStatus::WriteFault
        }
        Err(OpenFault::NoMemory) => SwitchStatus::NoMemory,
    }
}
