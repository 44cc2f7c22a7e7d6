//! The top call: the words are read and the ends opened, the chain runs, and the run is reported.
ghost use Rattle.std.specs.Prelude.{◌≡◌, map, false, true, IfSome, Some};
ghost use Rattle.std.specs.String.{string_bytes};
ghost use Rattle.chain_args.specs.ValidPlan.{IsValidPlan};
ghost use Rattle.chain_args.specs.PlanOf.{plan_of};
ghost use Rattle.tsp_top.specs.Openings.{finds_again};
ghost use Rattle.tsp_top.specs.TspCall.{CallsPlan, CallsTsp};

use crate::beginning::begin_plan;
use crate::call_end::CallEnd;
use crate::call_notes::PluginNotes;
use crate::driver::Driver;
use crate::finishing::{finish, finish_live};
use crate::in_threads::run_in_threads;
use crate::live_run::{run_printing, run_printing_apart};
use crate::one_thread::run_in_one_thread;
use crate::opened_call::OpenedCall;
use crate::status::Status;
use crate::words::refuse_words;
use chain_args::{InputConf, Plan, WordsFault, plan};
use std::alloc::Global;
use std::sync::Wait;
use std::thread::Threads;
use ts_outside::{Desk, Gate};

/// Does what the words of a command line ask for, given without the program's name.
///
/// The words name an input, plugins and an output (`chain_args::plan`). The files of tables that plugins name are read,
/// then input and output are opened, in this order. The packets go from one through the plugins to the other, both are
/// closed, and then the end line and the plugins' lines are reported. Of the statuses
///
/// - `Words` is returned where the words break a rule: its line is reported, and nothing is opened;
/// - `NoMemory` where memory ran out: before anything was opened, at the reading of a file of tables or the opening,
///   in the run or for the report;
/// - `TableFile` where a file of tables was read and has more than 16,777,216 bytes or no sections; its line is reported,
///   and nothing more is read or opened;
/// - `ReadFault` where a file of tables was not read, the input was not opened, or a read failed that ended the run;
/// - `WriteFault` where the output was not opened, where a write ended the run, or where the closing of the output or
///   a report failed after a run that would be `Done`;
/// - `Sync`, `Refused` and `TooLong` where that ended the run;
/// - `InputEnded` where the words ask for an input without an end (`--endless`), and a run that would be `Done` ended by the plain
///   end of its input;
/// - `FaultFound` where the words ask for it (`--fail-on-faults`), and in a run that would be `Done` a plugin has a fault before the
///   cut: one that it reports, or that it found nothing to edit, to insert or to keep;
/// - `Done` in all other cases.
///
/// Each stage of the chain has a thread of its own where the program may use two processors and the words do not ask for one
/// thread; else one thread serves all stages. The runtime starts the threads and waits for them.
///
/// Where the words ask for it (`--live`), the input has a thread of its own, where the others would and its packets are not found
/// again, and one thread serves all other stages; and each line of a plugin is reported soon after its packet
/// was written, in the order of packets, before the ends are closed; the summaries and the end line are reported after that. Where
/// memory runs out for the rest of such a report, its first lines stand reported, and the status is `NoMemory`.
pub fn tsp_call<R: Threads + Wait + Sync, D: Desk, G: Gate>(
    rt: &R,
    alloc: Global,
    words: &[String],
    desk: &mut D,
    gate: &G,
) -> Status
    ensures { CallsTsp (map string_bytes words.now) (D.seen desk.old) (D.seen desk.new) result }
{
    explained_call(rt, alloc, words, desk, gate, false).status
}

/// Does what `tsp_call` does, and returns the plan of the words with the status. Where it is asked, it is noted which plugins were
/// idle in the run, and which tables changed without a new version before the plugins that use them.
pub fn explained_call<R: Threads + Wait + Sync, D: Desk, G: Gate>(
    rt: &R,
    alloc: Global,
    words: &[String],
    desk: &mut D,
    gate: &G,
    asks_notes: bool,
) -> CallEnd
    ensures call { CallsTsp (map string_bytes words.now) (D.seen desk.old) (D.seen desk.new) result.status }
    ensures plan { IfSome result.plan (λ plan. plan_of (map string_bytes words.now) ≡ Some plan) }
{
    let driver = Driver::of_machine(rt);
    call_by(rt, alloc, words, desk, gate, driver, asks_notes)
}

/// Does what `tsp_call` does, with a thread for each stage on however many processors, where the words do not ask for one
/// thread.
pub fn threaded_call<R: Threads + Wait + Sync, D: Desk, G: Gate>(
    rt: &R,
    alloc: Global,
    words: &[String],
    desk: &mut D,
    gate: &G,
) -> Status
    ensures { CallsTsp (map string_bytes words.now) (D.seen desk.old) (D.seen desk.new) result }
{
    call_by(rt, alloc, words, desk, gate, Driver::InThreads, false).status
}

/// Does what `tsp_call` does, in one thread, whatever the words ask for. It needs no handle, so it returns where the calls of
/// the desk and the gate do.
pub fn serial_call<D: Desk, G: Gate>(
    alloc: Global,
    words: &[String],
    desk: &mut D,
    gate: &G,
) -> Status
    ensures { CallsTsp (map string_bytes words.now) (D.seen desk.old) (D.seen desk.new) result }
{
    call_in_one_thread(alloc, words, desk, gate, false).status
}

/// The call by this driver, where the words do not ask for one thread.
fn call_by<R: Threads + Wait + Sync, D: Desk, G: Gate>(
    rt: &R,
    alloc: Global,
    words: &[String],
    desk: &mut D,
    gate: &G,
    driver: Driver,
    asks_notes: bool,
) -> CallEnd
    ensures call { CallsTsp (map string_bytes words.now) (D.seen desk.old) (D.seen desk.new) result.status }
    ensures plan { IfSome result.plan (λ plan. plan_of (map string_bytes words.now) ≡ Some plan) }
{
    let mut notes = PluginNotes::new(alloc, asks_notes);
    match plan(alloc, words) {
        Ok(plan) => {
            let driver = driver.chosen(&plan.general);
            let status = run_plan(rt, alloc, &plan, desk, gate, driver, &mut notes);
            CallEnd {
                status,
                plan: Some(plan),
                notes,
            }
        }
        Err(WordsFault::At { word, rule }) => CallEnd {
            status: refuse_words(alloc, desk, word, rule),
            plan: None,
            notes,
        },
        Err(WordsFault::NoMemory) => CallEnd {
            status: Status::NoMemory,
            plan: None,
            notes,
        },
    }
}

/// The call in one thread.
fn call_in_one_thread<D: Desk, G: Gate>(
    alloc: Global,
    words: &[String],
    desk: &mut D,
    gate: &G,
    asks_notes: bool,
) -> CallEnd
    ensures call { CallsTsp (map string_bytes words.now) (D.seen desk.old) (D.seen desk.new) result.status }
    ensures plan { IfSome result.plan (λ plan. plan_of (map string_bytes words.now) ≡ Some plan) }
{
    let mut notes = PluginNotes::new(alloc, asks_notes);
    match plan(alloc, words) {
        Ok(plan) => {
            let status = run_plan_here(alloc, &plan, desk, gate, &mut notes);
            CallEnd {
                status,
                plan: Some(plan),
                notes,
            }
        }
        Err(WordsFault::At { word, rule }) => CallEnd {
            status: refuse_words(alloc, desk, word, rule),
            plan: None,
            notes,
        },
        Err(WordsFault::NoMemory) => CallEnd {
            status: Status::NoMemory,
            plan: None,
            notes,
        },
    }
}

/// The call of a plan by this driver, and what is noted of its plugins.
fn run_plan<R: Threads + Wait + Sync, D: Desk, G: Gate>(
    rt: &R,
    alloc: Global,
    plan: &Plan,
    desk: &mut D,
    gate: &G,
    driver: Driver,
    notes: &mut PluginNotes,
) -> Status
    requires { IsValidPlan plan.now }
    ensures { CallsPlan plan.now (D.seen desk.old) (D.seen desk.new) result }
{
    if plan.general.live {
        return run_plan_telling(rt, alloc, plan, desk, gate, driver, notes);
    }
    match driver {
        Driver::InOneThread => run_plan_in_one_thread(alloc, plan, desk, gate, notes),
        _ => run_plan_in_threads(rt, alloc, plan, desk, gate, notes),
    }
}

/// The same of a plan whose lines are printed while it goes. Where the input has lines too, one thread serves all stages: they are
/// read from its source between two rounds.
fn run_plan_telling<R: Threads + Wait + Sync, D: Desk, G: Gate>(
    rt: &R,
    alloc: Global,
    plan: &Plan,
    desk: &mut D,
    gate: &G,
    driver: Driver,
    notes: &mut PluginNotes,
) -> Status
    requires valid { IsValidPlan plan.now }
    requires live { plan.now.general.live ≡ true }
    ensures { CallsPlan plan.now (D.seen desk.old) (D.seen desk.new) result }
{
    if is_found_again(&plan.input) {
        return run_plan_live(alloc, plan, desk, gate, notes);
    }
    match driver {
        Driver::InOneThread => run_plan_live(alloc, plan, desk, gate, notes),
        _ => run_plan_live_apart(rt, alloc, plan, desk, gate, notes),
    }
}

/// Whether the packets of the input are found again.
fn is_found_again(conf: &InputConf) -> bool
    ensures { result ≡ finds_again conf.now }
{
    match conf {
        InputConf::File { resync, .. } => *resync,
        InputConf::Null(_) => false,
        InputConf::TestGen { .. } => false,
    }
}

/// The call of a plan in one thread, and what is noted of its plugins.
fn run_plan_here<D: Desk, G: Gate>(
    alloc: Global,
    plan: &Plan,
    desk: &mut D,
    gate: &G,
    notes: &mut PluginNotes,
) -> Status
    requires { IsValidPlan plan.now }
    ensures { CallsPlan plan.now (D.seen desk.old) (D.seen desk.new) result }
{
    if plan.general.live {
        return run_plan_live(alloc, plan, desk, gate, notes);
    }
    run_plan_in_one_thread(alloc, plan, desk, gate, notes)
}

/// The call of a plan in one thread whose lines are printed while it goes, and what is noted of its plugins.
fn run_plan_live<D: Desk, G: Gate>(
    alloc: Global,
    plan: &Plan,
    desk: &mut D,
    gate: &G,
    notes: &mut PluginNotes,
) -> Status
    requires valid { IsValidPlan plan.now }
    requires live { plan.now.general.live ≡ true }
    ensures { CallsPlan plan.now (D.seen desk.old) (D.seen desk.new) result }
{
    match begin_plan(alloc, desk, plan, Driver::InOneThread) {
        Ok(OpenedCall { core, stages }) => {
            let run = run_printing(alloc, stages, &core, gate, plan, desk);
            notes.note_idle(run.end.plugins.as_slice());
            finish_live(alloc, desk, plan, run, notes)
        }
        Err(status) => status,
    }
}

/// The call of a plan with a thread for the input whose lines are printed while it goes, and what is noted of its plugins.
fn run_plan_live_apart<R: Threads + Wait + Sync, D: Desk, G: Gate>(
    rt: &R,
    alloc: Global,
    plan: &Plan,
    desk: &mut D,
    gate: &G,
    notes: &mut PluginNotes,
) -> Status
    requires valid { IsValidPlan plan.now }
    requires live { plan.now.general.live ≡ true }
    requires placed { finds_again plan.now.input ≡ false }
    ensures { CallsPlan plan.now (D.seen desk.old) (D.seen desk.new) result }
{
    match begin_plan(alloc, desk, plan, Driver::InputApart) {
        Ok(OpenedCall { core, stages }) => {
            let run = run_printing_apart(rt, alloc, stages, &core, gate, plan, desk);
            notes.note_idle(run.end.plugins.as_slice());
            finish_live(alloc, desk, plan, run, notes)
        }
        Err(status) => status,
    }
}

/// The call of a plan with a thread for each stage, and what is noted of its plugins.
fn run_plan_in_threads<R: Threads + Wait + Sync, D: Desk, G: Gate>(
    rt: &R,
    alloc: Global,
    plan: &Plan,
    desk: &mut D,
    gate: &G,
    notes: &mut PluginNotes,
) -> Status
    requires valid { IsValidPlan plan.now }
    requires plain { plan.now.general.live ≡ false }
    ensures { CallsPlan plan.now (D.seen desk.old) (D.seen desk.new) result }
{
    match begin_plan(alloc, desk, plan, Driver::InThreads) {
        Ok(OpenedCall { core, stages }) => {
            let end = run_in_threads(rt, alloc, stages, &core, gate);
            notes.note_idle(end.plugins.as_slice());
            finish(alloc, desk, plan, end, notes)
        }
        Err(status) => status,
    }
}

/// The call of a plan in one thread, and what is noted of its plugins.
fn run_plan_in_one_thread<D: Desk, G: Gate>(
    alloc: Global,
    plan: &Plan,
    desk: &mut D,
    gate: &G,
    notes: &mut PluginNotes,
) -> Status
    requires valid { IsValidPlan plan.now }
    requires plain { plan.now.general.live ≡ false }
    ensures { CallsPlan plan.now (D.seen desk.old) (D.seen desk.new) result }
{
    match begin_plan(alloc, desk, plan, Driver::InOneThread) {
        Ok(OpenedCall { core, stages }) => {
            let end = run_in_one_thread(alloc, stages, &core, gate);
            notes.note_idle(end.plugins.as_slice());
            finish(alloc, desk, plan, end, notes)
        }
        Err(status) => status,
    }
}
