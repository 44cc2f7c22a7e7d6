//! A chain of six plugins, each two of which have to meet.
use crate::inputs::Input;
use crate::meeting_gate::MeetingGate;
use crate::trial::{Case, by_threaded_call, words_of};
use std::alloc::AllocError;
use std::io;
use std::sync::Wait;
use std::thread::Threads;
use test_tools::{ORDINARY, Tally};

const WORDS: &str =
    "--max-flushed-packets 1 -I null 8 -P skip 0 -P skip 0 -P skip 0 -P skip 0 -P skip 0 -P skip 0 -O drop";

const PLUGINS: usize = 6;

/// Runs the chain once for each two of its plugins, neighbours or not: two that share a thread never meet.
pub(crate) fn print_meeting_pairs<R: Threads + Wait + Sync + Print + AllocGlobal>(
    rt: &R,
) -> io::Result<()> {
    let mut tally = Tally::empty();
    for stage in 1..PLUGINS {
        tally = met_by_those_after(rt, stage, tally)?;
    }
    println!(rt;
        "each two of six plugins meet: {} of {} pairs",
        tally.alike, tally.runs
    )
}

/// The tally with a run for each plugin after this one, in which the two have to meet.
fn met_by_those_after<R: Threads + Wait + Sync + AllocGlobal>(
    rt: &R,
    stage: usize,
    tally: Tally,
) -> Result<Tally, AllocError> {
    let mut tally = tally;
    for behind in 1..=PLUGINS {
        if stage < behind {
            tally = tally.with(have_met(rt, stage, behind)?);
        }
    }
    Ok(tally)
}

/// Whether these two stages met.
fn have_met<R: Threads + Wait + Sync + AllocGlobal>(
    rt: &R,
    stage: usize,
    behind: usize,
) -> Result<bool, AllocError> {
    let words = words_of(rt.alloc(), WORDS)?;
    let gate = MeetingGate::between(stage, behind);
    let case = Case {
        words: words.as_slice(),
        input: Input::Pids(&[]),
        plan: ORDINARY,
    };
    by_threaded_call(rt, case, &gate)?;
    Ok(gate.have_met())
}
