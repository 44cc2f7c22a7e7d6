//! A worked example: its words, and the plan for the calls of its desk.
use crate::outcome::write_outcome;
use crate::trial::{Trial, played};
use std::alloc::AllocError;
use std::sync::Wait;
use std::thread::Threads;
use test_tools::{DeskPlan, Page, Tally};

/// A worked example. Its words do not give the number of packets of a ring.
#[derive(Clone, Copy)]
pub(crate) struct Row {
    pub(crate) name: &'static str,
    pub(crate) words: &'static str,
    pub(crate) plan: DeskPlan,
}

/// Words that give the number of packets of a ring.
static BUFFERS: [&str; 3] = [
    "--buffer-packets 1",
    "--buffer-packets 2",
    "--buffer-packets 7",
];

/// Plays rows, and writes their results. The tally gets them too, over rings of each of the sizes.
pub(crate) fn write_rows<R: Threads + Wait + Sync + AllocGlobal>(
    rt: &R,
    page: &mut Page,
    rows: &[Row],
    tally: &mut Tally,
) -> Result<(), AllocError> {
    for row in rows {
        *tally = write_row(rt, page, row, *tally)?;
    }
    Ok(())
}

/// Plays a row and writes its result; returns the tally with its runs over rings of the other sizes.
fn write_row<R: Threads + Wait + Sync + AllocGlobal>(
    rt: &R,
    page: &mut Page,
    row: &Row,
    tally: Tally,
) -> Result<Tally, AllocError> {
    page.text(row.name);
    page.text("\n");
    let trial = played(rt, "", row.words, row.plan, None)?;
    write_outcome(page, &trial);
    over_buffers(rt, row, &trial, tally)
}

/// The tally with a row's runs over rings of each of the sizes, each of which must have the same result.
fn over_buffers<R: Threads + Wait + Sync + AllocGlobal>(
    rt: &R,
    row: &Row,
    wanted: &Trial,
    tally: Tally,
) -> Result<Tally, AllocError> {
    let mut tally = tally;
    for buffer in &BUFFERS {
        tally = tally.with(is_same_with(rt, row, buffer, wanted)?);
    }
    Ok(tally)
}

fn is_same_with<R: Threads + Wait + Sync + AllocGlobal>(
    rt: &R,
    row: &Row,
    buffer: &str,
    wanted: &Trial,
) -> Result<bool, AllocError> {
    let trial = played(rt, buffer, row.words, row.plan, None)?;
    Ok(trial.is_like(wanted))
}
