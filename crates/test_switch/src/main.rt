//! Plays worked examples over a desk in memory, by `switch_call`, and prints the result of each: the status, the
//! report, the written packets, and the order in which names were opened and closed. Then it tries words that are not
//! of the form, and plays inputs of which two have to be read at the same time.
#![tactic(auto)]

mod fault_rows;
mod files;
mod found_rows;
mod meeting;
mod meeting_rows;
mod outcome;
mod play_rows;
mod row;
mod steps;
mod trial;
mod watched_desk;
mod watched_source;
mod word_rows;

use row::{Row, write_rows};
use std::alloc::AllocError;
use std::io;
use std::sync::Wait;
use std::thread::Threads;
use test_tools::{Page, Tally};

fn main(rt: HostRuntime) -> io::Result<()> {
    print_tables(&rt)?;
    word_rows::print_words(&rt)?;
    meeting_rows::print_meetings(&rt)
}

/// Prints the rows of all tables, and how many of their runs have the same result over rings of the other sizes.
fn print_tables<R: Threads + Wait + Sync + Print + AllocGlobal>(rt: &R) -> io::Result<()> {
    let mut page = Page::new(rt.alloc());
    write_tables(rt, &mut page)?;
    page.print(rt)
}

fn write_tables<R: Threads + Wait + Sync + AllocGlobal>(
    rt: &R,
    page: &mut Page,
) -> Result<(), AllocError> {
    let tables: [&[Row]; 4] = [
        play_rows::rows(),
        fault_rows::rows(),
        fault_rows::after_plays(),
        found_rows::rows(),
    ];
    let mut tally = Tally::empty();
    for rows in tables {
        write_rows(rt, page, rows, &mut tally)?;
    }
    page.add(format_args!(
        "over rings of 1, 2 and 7 packets the same: {} of {} runs\n",
        tally.alike, tally.runs
    ));
    Ok(())
}
