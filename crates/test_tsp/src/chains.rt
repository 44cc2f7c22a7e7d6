//! Chains with many sizes of the buffer and the batches: each run has to give the result of the run in one thread with the
//! default sizes.
use crate::chain_table::{CHAINS, Chain};
use crate::inputs::Input;
use crate::outcome::write_outcome;
use crate::trial::{Case, Trial, by_serial_call, by_tsp_call, push_words};
use std::alloc::{AllocError, Global};
use std::io;
use std::sync::Wait;
use std::thread::Threads;
use test_tools::{ORDINARY, Page, Tally};
use ts_outside::OpenGate;

/// Sizes of the buffer; the empty text stands for the default.
static BUFFERS: [&str; 5] = [
    "--buffer-packets 1",
    "--buffer-packets 2",
    "--buffer-packets 7",
    "--buffer-packets 1000",
    "",
];

/// The most cells that a stage takes in one batch.
static BATCHES: [&str; 3] = ["--max-flushed-packets 1", "--max-flushed-packets 3", ""];

/// Runs each chain, and prints its result.
pub(crate) fn print_chains<R: Threads + Wait + Sync + Print + AllocGlobal>(
    rt: &R,
) -> io::Result<()> {
    let mut page = Page::new(rt.alloc());
    write_chains(rt, &mut page)?;
    page.print(rt)
}

fn write_chains<R: Threads + Wait + Sync + AllocGlobal>(
    rt: &R,
    page: &mut Page,
) -> Result<(), AllocError> {
    for chain in &CHAINS {
        write_chain(rt, page, chain)?;
    }
    Ok(())
}

/// Writes how many of the other runs agree, and the result of the first one.
fn write_chain<R: Threads + Wait + Sync + AllocGlobal>(
    rt: &R,
    page: &mut Page,
    chain: &Chain,
) -> Result<(), AllocError> {
    let first = first_run(rt.alloc(), chain)?;
    let tally = tally_of(rt, chain, &first)?;
    page.text(chain.name);
    page.add(format_args!(": {} of {} runs agree\n", tally.alike, tally.runs));
    write_outcome(page, &first);
    Ok(())
}

/// The run in one thread with the default sizes.
fn first_run(alloc: Global, chain: &Chain) -> Result<Trial, AllocError> {
    let words = sized_words(alloc, chain, "", "")?;
    by_serial_call(alloc, case_of(words.as_slice()), &OpenGate)
}

/// How many runs, one for each buffer and each batch, have the result of the first one.
fn tally_of<R: Threads + Wait + Sync + AllocGlobal>(
    rt: &R,
    chain: &Chain,
    first: &Trial,
) -> Result<Tally, AllocError> {
    let mut tally = Tally::empty();
    for buffer in BUFFERS {
        for batch in BATCHES {
            tally = tally.with(is_like(rt, chain, buffer, batch, first)?);
        }
    }
    Ok(tally)
}

/// Whether the run with these sizes has the result of the first one.
fn is_like<R: Threads + Wait + Sync + AllocGlobal>(
    rt: &R,
    chain: &Chain,
    buffer: &str,
    batch: &str,
    first: &Trial,
) -> Result<bool, AllocError> {
    let words = sized_words(rt.alloc(), chain, buffer, batch)?;
    let other = by_tsp_call(rt, case_of(words.as_slice()), &OpenGate)?;
    first.is_like(rt.alloc(), &other)
}

/// A trial of the mixed stream with these words.
fn case_of(words: &[String]) -> Case<'_> {
    Case {
        words,
        input: Input::Mixed,
        plan: ORDINARY,
    }
}

/// The words of a chain with these sizes.
fn sized_words(
    alloc: Global,
    chain: &Chain,
    buffer: &str,
    batch: &str,
) -> Result<Vec<String>, AllocError> {
    let mut words = Vec::new(alloc);
    push_words(alloc, &mut words, chain.general)?;
    push_words(alloc, &mut words, buffer)?;
    push_words(alloc, &mut words, batch)?;
    push_words(alloc, &mut words, "-I file in")?;
    push_words(alloc, &mut words, chain.plugins)?;
    push_words(alloc, &mut words, "-O file out")?;
    Ok(words)
}
