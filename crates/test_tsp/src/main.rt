//! Runs worked examples of the whole tool over a desk in memory, by `tsp_call` and by `serial_call`, and prints the result
//! of each. Then it runs chains by `threaded_call` whose gates check how the stages work at once, one of them by `tsp_call`
//! too, and chains with many sizes of the buffer and the batches, which have to agree in bytes, report and status.
//!
//! Where an argument is given, it names a list of calls, and only these are made (`tests/calls`).
#![tactic(auto)]

mod asked_rows;
mod bytes;
mod carried;
mod chain_table;
mod chains;
mod clock_rows;
mod cycle_rows;
mod edit_rows;
mod eit_rows;
mod end_rows;
mod error_rows;
mod event_tables;
mod every_rows;
mod everywhere_rows;
mod failing_ends;
mod failing_reads;
mod failing_writes;
mod fault_rows;
mod following_gate;
mod form_rows;
mod generated_rows;
mod info_rows;
mod inputs;
mod interval_rows;
mod invalid_packets;
mod keeping_gate;
mod listed_calls;
mod listed_desk;
mod listed_tables;
mod live_rows;
mod long_pat;
mod meeting_gate;
mod meeting_pairs;
mod mixed_stream;
mod name_rows;
mod named_tables;
mod network_tables;
mod note_rows;
mod outcome;
mod plugin_rows;
mod rate_rows;
mod resync_rows;
mod row;
mod service_rows;
mod small_pieces;
mod stamp_rows;
mod stream_rows;
mod table_rows;
mod threads;
mod time_rows;
mod time_tables;
mod trial;
mod trial_desk;
mod window_rows;
mod windows;
mod word_rows;

use row::{Row, write_rows};
use std::alloc::AllocError;
use std::sync::Wait;
use std::thread::Threads;
use std::{env, io};
use test_tools::{Page, Tally};

fn main(rt: HostRuntime) -> io::Result<()> {
    let mut words = env::args(&rt)?;
    let _name = words.next();
    match words.next() {
        Some(list) => listed_calls::print_listed(&rt, list.as_str()),
        None => print_worked(&rt),
    }
}

/// Prints the worked examples.
fn print_worked<R: Threads + Wait + Sync + Print + AllocGlobal>(rt: &R) -> io::Result<()> {
    print_tables(rt)?;
    invalid_packets::print_unchanged(rt)?;
    windows::print_windows(rt)?;
    threads::print_threads(rt)?;
    meeting_pairs::print_meeting_pairs(rt)?;
    chains::print_chains(rt)
}

/// Prints the rows of all tables, and how many of them have the same result by both calls.
fn print_tables<R: Threads + Wait + Sync + Print + AllocGlobal>(rt: &R) -> io::Result<()> {
    let mut page = Page::new(rt.alloc());
    write_tables(rt, &mut page)?;
    page.print(rt)
}

fn write_tables<R: Threads + Wait + Sync + AllocGlobal>(
    rt: &R,
    page: &mut Page,
) -> Result<(), AllocError> {
    let mut tally = Tally::empty();
    for rows in tables() {
        write_rows(rt, page, rows, &mut tally)?;
    }
    page.add(format_args!("both calls agree: {} of {} rows\n", tally.alike, tally.runs));
    Ok(())
}

/// All tables, in the order in which they are printed.
fn tables() -> [&'static [Row]; 51] {
    [
        end_rows::rows(),
        plugin_rows::rows(),
        plugin_rows::of_watchers(),
        plugin_rows::of_joint_ends(),
        plugin_rows::of_labels(),
        edit_rows::rows(),
        service_rows::rows(),
        everywhere_rows::rows(),
        window_rows::rows(),
        stream_rows::rows(),
        eit_rows::rows(),
        clock_rows::rows(),
        time_rows::rows(),
        stamp_rows::rows(),
        interval_rows::rows(),
        error_rows::rows(),
        info_rows::rows(),
        rate_rows::rows(),
        name_rows::rows(),
        generated_rows::rows(),
        cycle_rows::rows(),
        note_rows::rows(),
        table_rows::rows(),
        table_rows::of_faults(),
        fault_rows::at_openings(),
        fault_rows::in_runs(),
        fault_rows::after_runs(),
        failing_reads::rows(),
        failing_writes::rows(),
        failing_ends::rows(),
        small_pieces::rows(),
        invalid_packets::rows(),
        form_rows::rows(),
        resync_rows::rows(),
        asked_rows::rows(),
        asked_rows::of_faults(),
        live_rows::rows(),
        every_rows::rows(),
        word_rows::rows(),
        every_rows::of_words(),
        edit_rows::of_words(),
        service_rows::of_words(),
        window_rows::of_words(),
        stream_rows::of_words(),
        eit_rows::of_words(),
        clock_rows::of_words(),
        time_rows::of_words(),
        stamp_rows::of_words(),
        interval_rows::of_words(),
        error_rows::of_words(),
        info_rows::of_words(),
    ]
}
