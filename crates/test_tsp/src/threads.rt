//! Chains whose gate checks how the stages work at once: two by `threaded_call`, and one by `tsp_call`.
use crate::following_gate::FollowingGate;
use crate::inputs::Input;
use crate::meeting_gate::MeetingGate;
use crate::outcome::write_outcome;
use crate::trial::{Case, by_threaded_call, by_tsp_call, words_of};
use std::alloc::AllocError;
use std::io;
use std::sync::Wait;
use std::thread::{Threads, available_parallelism};
use test_tools::{ORDINARY, Page};
use ts_outside::Gate;

const MEETING_WORDS: &str = "--max-flushed-packets 1 -I null 8 -P skip 0 -P skip 0 -O drop";

const FOLLOWING_WORDS: &str =
    "--buffer-packets 4 --max-flushed-packets 3 -I null 100 -P skip 0 -P skip 0 -O drop";

const BUFFER: u64 = 4;

/// Where `tsp_call` may use so many processors, each stage has a thread.
const PROCESSORS_FOR_THREADS: usize = 2;

/// Runs the chains, and prints what their gates saw.
pub(crate) fn print_threads<R: Threads + Wait + Sync + Print + AllocGlobal>(
    rt: &R,
) -> io::Result<()> {
    let mut page = Page::new(rt.alloc());
    write_meeting(rt, &mut page)?;
    write_meeting_by_tsp_call(rt, &mut page)?;
    write_following(rt, &mut page)?;
    page.print(rt)
}

/// Two stages that are held until they meet, which they never do in one thread.
fn write_meeting<R: Threads + Wait + Sync + AllocGlobal>(
    rt: &R,
    page: &mut Page,
) -> Result<(), AllocError> {
    page.text("two stages meet\n");
    let gate = MeetingGate::between(1, 2);
    write_call(rt, page, MEETING_WORDS, &gate)?;
    page.text("  each was inside a window at once with the other: ");
    page.add(gate.have_met());
    page.text("\n");
    Ok(())
}

/// The same two stages by `tsp_call`, the call that the program makes. With one processor the run is passed over, and
/// what is written is the same.
fn write_meeting_by_tsp_call<R: Threads + Wait + Sync + AllocGlobal>(
    rt: &R,
    page: &mut Page,
) -> Result<(), AllocError> {
    let is_so = has_one_processor(rt) || have_met_by_tsp_call(rt)?;
    page.text("two stages meet by tsp_call, where there are two processors: ");
    page.add(is_so);
    page.text("\n");
    Ok(())
}

/// Whether the program may use one processor alone. Where the system does not say, it is taken for more.
fn has_one_processor<R: Threads>(rt: &R) -> bool {
    match available_parallelism(rt) {
        Ok(processors) => processors.get() < PROCESSORS_FOR_THREADS,
        Err(_) => false,
    }
}

/// Whether two stages met that `tsp_call` drives.
fn have_met_by_tsp_call<R: Threads + Wait + Sync + AllocGlobal>(
    rt: &R,
) -> Result<bool, AllocError> {
    let words = words_of(rt.alloc(), MEETING_WORDS)?;
    let gate = MeetingGate::between(1, 2);
    let case = Case {
        words: words.as_slice(),
        input: Input::Pids(&[]),
        plan: ORDINARY,
    };
    by_tsp_call(rt, case, &gate)?;
    Ok(gate.have_met())
}

/// Two stages over a buffer of four cells.
fn write_following<R: Threads + Wait + Sync + AllocGlobal>(
    rt: &R,
    page: &mut Page,
) -> Result<(), AllocError> {
    page.text("windows follow one another\n");
    let gate = FollowingGate::new(BUFFER);
    write_call(rt, page, FOLLOWING_WORDS, &gate)?;
    write_stages(page, &gate);
    Ok(())
}

/// Writes what the gate saw of each stage.
fn write_stages(page: &mut Page, gate: &FollowingGate) {
    for stage in gate.stages() {
        let end = stage.end();
        let wrong = stage.wrong();
        page.add(format_args!("  a plugin's windows end at {end}, and {wrong} are wrong\n"));
    }
}

fn write_call<R: Threads + Wait + Sync + AllocGlobal, G: Gate>(
    rt: &R,
    page: &mut Page,
    text: &str,
    gate: &G,
) -> Result<(), AllocError> {
    let words = words_of(rt.alloc(), text)?;
    let case = Case {
        words: words.as_slice(),
        input: Input::Pids(&[]),
        plan: ORDINARY,
    };
    let trial = by_threaded_call(rt, case, gate)?;
    write_outcome(page, &trial);
    Ok(())
}
