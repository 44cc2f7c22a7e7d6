//! Plays in which the next input is read while the current one is.
use crate::meeting::Meeting;
use crate::outcome::write_outcome;
use crate::trial::played;
use std::alloc::AllocError;
use std::io;
use std::sync::Wait;
use std::thread::Threads;
use test_tools::{DeskPlan, ORDINARY, Page};

/// A row in which the second read of the first input and a read of the second one meet.
#[derive(Clone, Copy)]
struct MeetingRow {
    name: &'static str,
    words: &'static str,
    plan: DeskPlan,
    /// The number of that read.
    read: u64,
}

static ROWS: [MeetingRow; 3] = [
    MeetingRow {
        name: "inputs meet",
        words: "-I file A -I file B -O file C",
        plan: ORDINARY,
        read: 1,
    },
    MeetingRow {
        name: "a read of the input after the last one that is played has failed",
        words: "-I file lost -I file many -O file C",
        plan: DeskPlan {
            reads: &[3],
            ..ORDINARY
        },
        read: 3,
    },
    MeetingRow {
        name: "the input after the last one that is played has lost sync",
        words: "-I file lost -I file lost -O file C",
        plan: ORDINARY,
        read: 2,
    },
];

/// Plays all of them, and prints their results and whether the reads met.
pub(crate) fn print_meetings<R: Threads + Wait + Sync + Print + AllocGlobal>(
    rt: &R,
) -> io::Result<()> {
    let mut page = Page::new(rt.alloc());
    write_meetings(rt, &mut page)?;
    page.print(rt)
}

fn write_meetings<R: Threads + Wait + Sync + AllocGlobal>(
    rt: &R,
    page: &mut Page,
) -> Result<(), AllocError> {
    for row in &ROWS {
        write_meeting(rt, page, row)?;
    }
    Ok(())
}

fn write_meeting<R: Threads + Wait + Sync + AllocGlobal>(
    rt: &R,
    page: &mut Page,
    row: &MeetingRow,
) -> Result<(), AllocError> {
    page.text(row.name);
    page.text("\n");
    let meeting = Meeting::with_read(row.read);
    let trial = played(rt, "", row.words, row.plan, Some(&meeting))?;
    write_outcome(page, &trial);
    page.text("  both reads met: ");
    page.add(meeting.have_met());
    page.text("\n");
    Ok(())
}
