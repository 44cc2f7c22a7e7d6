//! A chain whose gate records the windows that each plugin works on.
use crate::inputs::Input;
use crate::keeping_gate::{KeepingGate, ROOM, Windows};
use crate::outcome::write_outcome;
use crate::trial::{Case, by_serial_call, by_tsp_call, words_of};
use std::alloc::{AllocError, Global};
use std::io;
use std::sync::Wait;
use std::thread::Threads;
use test_tools::{ORDINARY, Page};

/// A window may have two cells, and has one, since a read gives one packet and that is handed on. The second plugin ends
/// the run with its fifth live cell, the eighth of all. The first receives this a turn later, and has worked on one window
/// more by then.
const WORDS: &str =
    "--buffer-packets 4 --max-flushed-packets 2 -I file in -P skip 3 -P until --packets 5 -O file out";

const PLUGINS: usize = 2;

const PIDS: [u16; 10] = [300, 301, 302, 303, 304, 305, 306, 307, 308, 309];

/// Runs the chain by both calls, and prints the windows of its plugins.
pub(crate) fn print_windows<R: Threads + Wait + Sync + Print + AllocGlobal>(
    rt: &R,
) -> io::Result<()> {
    let mut page = Page::new(rt.alloc());
    write_windows(rt, &mut page)?;
    page.print(rt)
}

fn write_windows<R: Threads + Wait + Sync + AllocGlobal>(
    rt: &R,
    page: &mut Page,
) -> Result<(), AllocError> {
    let words = words_of(rt.alloc(), WORDS)?;
    let case = Case {
        words: words.as_slice(),
        input: Input::Pids(&PIDS),
        plan: ORDINARY,
    };
    write_serial(rt.alloc(), page, case)?;
    write_by_tsp_call(rt, page, case)
}

/// In one thread: each window of each plugin, in order.
fn write_serial(alloc: Global, page: &mut Page, case: Case) -> Result<(), AllocError> {
    page.text("the windows of two plugins\n");
    let gate = KeepingGate::new(alloc, PLUGINS)?;
    let trial = by_serial_call(alloc, case, &gate)?;
    write_outcome(page, &trial);
    write_plugins(page, &gate);
    Ok(())
}

fn write_plugins(page: &mut Page, gate: &KeepingGate) {
    for windows in gate.plugins() {
        write_plugin(page, windows);
    }
}

fn write_plugin(page: &mut Page, windows: &Windows) {
    page.text("  a plugin's windows:");
    for n in 0..ROOM {
        if let Some(window) = windows.window(n) {
            page.add(format_args!(" {}..{}", window.start, window.end));
        }
    }
    page.text(", each left: ");
    page.add(windows.is_whole());
    page.text("\n");
}

/// By `tsp_call`: its windows may be others, but each begins where the one before it ends, too.
fn write_by_tsp_call<R: Threads + Wait + Sync + AllocGlobal>(
    rt: &R,
    page: &mut Page,
    case: Case,
) -> Result<(), AllocError> {
    page.text("the same by tsp_call\n");
    let gate = KeepingGate::new(rt.alloc(), PLUGINS)?;
    let trial = by_tsp_call(rt, case, &gate)?;
    write_outcome(page, &trial);
    write_rows(page, &gate);
    Ok(())
}

/// Writes whether each window of each plugin begins where the one before it ends, and whether each was left.
fn write_rows(page: &mut Page, gate: &KeepingGate) {
    for windows in gate.plugins() {
        page.text("  a plugin's windows follow one another: ");
        page.add(windows.is_one_row());
        page.text(", each left: ");
        page.add(windows.is_whole());
        page.text("\n");
    }
}
