//! A call of a plan until its run: the tables are read, the chain is made ready, and its two ends are opened.
ghost use Rattle.std.specs.Prelude.{◌≡◌, ℕ, List, map, MatchResult};
ghost use Rattle.chain_args.specs.ValidPlan.{IsValidPlan};
ghost use Rattle.stage_run.specs.Seeing.{seeing};
ghost use Rattle.search_source.specs.FileView.{of_either};
ghost use Rattle.ts_outside.specs.Desk.{DeskView};
ghost use Rattle.tsp_top.specs.Openings.{asked_input, OpensInput};
ghost use Rattle.tsp_top.specs.Ran.{IsReady, IsOpened, OpensPlan};
ghost use Rattle.tsp_top.specs.StreamTheorem.{StreamTheorem};
ghost use Rattle.tsp_top.specs.TspCall.{CallsPlan, IsOverBefore};

use crate::driver::Driver;
use crate::opened_call::OpenedCall;
use crate::opening::{PacketSource, close_input, open_input, open_output};
use crate::ready::{ReadyChain, ready_chain};
use crate::status::Status;
use crate::tables::read_tables;
use chain_args::{GeneralConf, Plan};
use chain_core::CorePlan;
use chain_run::Stages;
use plugin_set::AnyPlugin;
use plugin_trait::Plugin;
use stage_run::InputPart;
use std::alloc::{AllocError, Global};
use ts_outside::{Desk, OpenFault, Source, say};
use ts_section::Section;

/// So many packets and more are begun before the first of them is given on.
const PACKETS_IN_HAND: u64 = 8;

/// Reads the tables of a plan and opens its ends. Returns the open call, ready for this driver, or the status of a call that is
/// over.
pub(crate) fn begin_plan<D: Desk>(
    alloc: Global,
    desk: &mut D,
    plan: &Plan,
    driver: Driver,
) -> Result<OpenedCall<PacketSource<D::In>, D::Out, AnyPlugin>, Status>
    requires { IsValidPlan plan.now }
    ensures { MatchResult result
        (λ call. OpensPlan
        (seeing ⟦<PacketSource<D::In> as Source>⟧.seen D.Out.seen
        ⟦<AnyPlugin as Plugin>⟧.rule ⟦<AnyPlugin as Plugin>⟧.stands_for ⟦<AnyPlugin as Plugin>⟧.preallocated)
        (of_either (λ placed. D.In.seen placed.source) (λ found. D.In.seen found.source.source))
        plan.now call.core (D.seen desk.old) (D.seen desk.new)
        call.stages.input call.stages.stuffing call.stages.plugins.items call.stages.output)
        (λ status. CallsPlan plan.now (D.seen desk.old) (D.seen desk.new) status) }
{
    match read_tables(alloc, desk, plan) {
        Ok(tables) => begin_chain(alloc, desk, plan, tables, driver),
        Err(status) => Err(status),
    }
}

/// Makes the chain of a plan with these tables ready, and opens its ends.
fn begin_chain<D: Desk>(
    alloc: Global,
    desk: &mut D,
    plan: &Plan,
    tables: Vec<Vec<Section>>,
    driver: Driver,
) -> Result<OpenedCall<PacketSource<D::In>, D::Out, AnyPlugin>, Status>
    requires { IsValidPlan plan.now }
    ensures { MatchResult result
        (λ call. IsOpened
        (seeing ⟦<PacketSource<D::In> as Source>⟧.seen D.Out.seen
        ⟦<AnyPlugin as Plugin>⟧.rule ⟦<AnyPlugin as Plugin>⟧.stands_for ⟦<AnyPlugin as Plugin>⟧.preallocated)
        (of_either (λ placed. D.In.seen placed.source) (λ found. D.In.seen found.source.source))
        plan.now (map (λ table. table.items) tables.items) call.core (D.seen desk.old) (D.seen desk.new)
        call.stages.input call.stages.stuffing call.stages.plugins.items call.stages.output)
        (λ status. IsOverBefore plan.now (map (λ table. table.items) tables.items)
        (D.seen desk.old) (D.seen desk.new) status) }
{
    match ready_chain(alloc, plan, tables, driver) {
        Ok(ready) => open_ends(alloc, desk, plan, ready),
        Err(AllocError) => Err(Status::NoMemory),
    }
}

/// How many packets back the gaps of the input are kept. A report that is printed while the run goes needs those before the
/// packets that are in the buffer, and before one in hand; any other needs all.
fn kept_packets(general: &GeneralConf, core: &CorePlan) -> u64 {
    if general.live {
        (core.buffer as u64).saturating_add(PACKETS_IN_HAND)
    } else {
        u64::MAX
    }
}

/// Opens the input and then the output.
fn open_ends<P: Plugin + Drop, D: Desk>(
    alloc: Global,
    desk: &mut D,
    plan: &Plan,
    ready: ReadyChain<P>,
) -> Result<OpenedCall<PacketSource<D::In>, D::Out, P>, Status>
    ensures { (tables : List (List (List ℕ)))
        → IsReady P.rule P.stands_for P.preallocated plan.now tables ready.stuffing ready.core ready.plugins.items
        → MatchResult result
        (λ call. IsOpened (seeing ⟦<PacketSource<D::In> as Source>⟧.seen D.Out.seen P.rule P.stands_for P.preallocated)
        (of_either (λ placed. D.In.seen placed.source) (λ found. D.In.seen found.source.source))
        plan.now tables call.core (D.seen desk.old) (D.seen desk.new)
        call.stages.input call.stages.stuffing call.stages.plugins.items call.stages.output)
        (λ status. IsOverBefore plan.now tables (D.seen desk.old) (D.seen desk.new) status) }
{
    let keep = kept_packets(&plan.general, &ready.core);
    match open_input(alloc, desk, &plan.input, keep) {
        Ok(input) => open_after(desk, plan, ready, input),
        Err(OpenFault::Failed) => {
            say(desk, "tsp: cannot open input\n");
            Err(Status::ReadFault)
        }
        Err(OpenFault::NoMemory) => Err(Status::NoMemory),
    }
}

/// Opens the output after an input that is open; where that fails, the input is closed.
fn open_after<P: Plugin + Drop, D: Desk>(
    desk: &mut D,
    plan: &Plan,
    ready: ReadyChain<P>,
    input: InputPart<PacketSource<D::In>>,
) -> Result<OpenedCall<PacketSource<D::In>, D::Out, P>, Status>
    requires { ((old : DeskView) × OpensInput ⟦<PacketSource<D::In> as Source>⟧.seen (of_either (λ placed. D.In.seen placed.source) (λ found. D.In.seen found.source.source)) old plan.now.input
        input) }
    ensures { (tables : List (List (List ℕ))) (old : DeskView)
        → IsReady P.rule P.stands_for P.preallocated plan.now tables ready.stuffing ready.core ready.plugins.items
        → D.seen desk.old ≡ asked_input old plan.now.input
        → OpensInput ⟦<PacketSource<D::In> as Source>⟧.seen (of_either (λ placed. D.In.seen placed.source) (λ found. D.In.seen found.source.source)) old plan.now.input input
        → MatchResult result
        (λ call. IsOpened (seeing ⟦<PacketSource<D::In> as Source>⟧.seen D.Out.seen P.rule P.stands_for P.preallocated)
        (of_either (λ placed. D.In.seen placed.source) (λ found. D.In.seen found.source.source))
        plan.now tables call.core old (D.seen desk.new)
        call.stages.input call.stages.stuffing call.stages.plugins.items call.stages.output)
        (λ status. StreamTheorem plan.now tables old (D.seen desk.new) status) }
{
    match open_output(desk, &plan.output) {
        Ok(output) => {
            let ReadyChain {
                stuffing,
                core,
                plugins,
            } = ready;
            Ok(OpenedCall {
                core,
                stages: Stages {
                    input,
                    stuffing,
                    plugins,
                    output,
                },
            })
        }
        Err(OpenFault::Failed) => {
            let _kept = close_input(desk, input);
            say(desk, "tsp: cannot open output\n");
            Err(Status::WriteFault)
        }
        Err(OpenFault::NoMemory) => {
            let _kept = close_input(desk, input);
            Err(Status::NoMemory)
        }
    }
}
