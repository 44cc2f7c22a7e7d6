//! A worked example: its words, its input, and which calls of its desk fail.
use crate::inputs::Input;
use crate::outcome::write_outcome;
use crate::trial::{Case, Trial, by_serial_call, by_tsp_call, words_of};
use std::alloc::{AllocError, Global};
use std::sync::Wait;
use std::thread::Threads;
use test_tools::{DeskPlan, Page, Tally};
use ts_outside::OpenGate;

/// A worked example.
#[derive(Clone, Copy)]
pub(crate) struct Row {
    pub(crate) name: &'static str,
    pub(crate) words: &'static str,
    pub(crate) input: Input,
    pub(crate) plan: DeskPlan,
}

/// Runs rows by both calls, writes their results, and adds them to the tally.
pub(crate) fn write_rows<R: Threads + Wait + Sync + AllocGlobal>(
    rt: &R,
    page: &mut Page,
    rows: &[Row],
    tally: &mut Tally,
) -> Result<(), AllocError> {
    for row in rows {
        *tally = tally.with(write_row(rt, page, row)?);
    }
    Ok(())
}

/// Runs a row, and writes its result by `tsp_call`. Returns whether `serial_call` gives the same.
fn write_row<R: Threads + Wait + Sync + AllocGlobal>(
    rt: &R,
    page: &mut Page,
    row: &Row,
) -> Result<bool, AllocError> {
    page.text(row.name);
    page.text("\n");
    let words = words_of(rt.alloc(), row.words)?;
    let case = Case {
        words: words.as_slice(),
        input: row.input,
        plan: row.plan,
    };
    write_case(rt, page, case)
}

fn write_case<R: Threads + Wait + Sync + AllocGlobal>(
    rt: &R,
    page: &mut Page,
    case: Case,
) -> Result<bool, AllocError> {
    let outcome = by_tsp_call(rt, case, &OpenGate)?;
    write_outcome(page, &outcome);
    let is_alike = is_serial_like(rt.alloc(), case, &outcome)?;
    if !is_alike {
        page.text("  serial_call came to something else\n");
    }
    Ok(is_alike)
}

/// Whether `serial_call` gives the same.
fn is_serial_like(alloc: Global, case: Case, outcome: &Trial) -> Result<bool, AllocError> {
    let serial = by_serial_call(alloc, case, &OpenGate)?;
    outcome.is_like(alloc, &serial)
}
