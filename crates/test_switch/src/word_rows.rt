//! Words that are not of the form, and the limits of those that are.
use crate::trial::{Trial, called, push_words, words_with};
use std::alloc::{AllocError, Global};
use std::io;
use std::sync::Wait;
use std::thread::Threads;
use test_tools::{ORDINARY, Page};

/// Each of these lists but the last four has its first fault at another word or for another reason. The last four
/// are at the limits of the form.
static WORDS: [&str; 48] = [
    "",
    "-O drop",
    "A",
    "--cycle",
    "--cycle 0 -I file A",
    "--cycle 1001 -I file A",
    "--cycle -1 -I file A",
    "--cycle two -I file A",
    "--cycle '' -I file A",
    "--cycle=2 -I file A",
    "--cycle 2",
    "--cycle 2 --cycle 2 -I file A",
    "--cycle 2 -O drop",
    "--buffer-packets",
    "--buffer-packets 0 -I file A",
    "--buffer-packets 1000001 -I file A",
    "--buffer-packets 5 --buffer-packets 5 -I file A",
    "--buffer-packets 5 --cycle 2",
    "--buffer-packets 5 --cycle 2 --cycle 2 -I file A",
    "--resync",
    "--resync --resync -I file A",
    "--resync 1 -I file A",
    "-I file A --resync",
    "-I",
    "-I null 5",
    "-I drop",
    "-I file",
    "-I file ''",
    "-I file -A",
    "-I file -O drop",
    "-I file A A",
    "-I file A --cycle 2",
    "-I file A --buffer-packets 5",
    "-I file A -I",
    "-I file A -I file",
    "-I file A -I file - -O drop",
    "-I file A -O",
    "-I file A -O null",
    "-I file A -O file",
    "-I file A -O file ''",
    "-I file A -O file -C",
    "-I file A -O drop C",
    "-I file A -O drop -O drop",
    "-I file A -O file C -I file A",
    "--cycle 1000 -I file none -O drop",
    "--buffer-packets 5 --cycle 2 -I file A -O drop",
    "--cycle 2 --buffer-packets 5 -I file A -O drop",
    "--cycle 2 --resync --buffer-packets 5 -I file A -O drop",
];

/// Prints the results of all of them, and of one input more than allowed.
pub(crate) fn print_words<R: Threads + Wait + Sync + Print + AllocGlobal>(
    rt: &R,
) -> io::Result<()> {
    let mut page = Page::new(rt.alloc());
    write_texts(rt, &mut page)?;
    write_inputs(rt, &mut page, 32)?;
    write_inputs(rt, &mut page, 33)?;
    page.print(rt)
}

fn write_texts<R: Threads + Wait + Sync + AllocGlobal>(
    rt: &R,
    page: &mut Page,
) -> Result<(), AllocError> {
    for text in &WORDS {
        write_text(rt, page, text)?;
    }
    Ok(())
}

fn write_text<R: Threads + Wait + Sync + AllocGlobal>(
    rt: &R,
    page: &mut Page,
    text: &str,
) -> Result<(), AllocError> {
    page.add(format_args!("{text:?}: "));
    let words = words_with(rt.alloc(), "", text)?;
    write_short(rt, page, words.as_slice())
}

/// Plays `count` inputs of one packet.
fn write_inputs<R: Threads + Wait + Sync + AllocGlobal>(
    rt: &R,
    page: &mut Page,
    count: usize,
) -> Result<(), AllocError> {
    page.add(format_args!("{count} inputs: "));
    let words = inputs(rt.alloc(), count)?;
    write_short(rt, page, words.as_slice())
}

fn inputs(alloc: Global, count: usize) -> Result<Vec<String>, AllocError> {
    let mut words = Vec::new(alloc);
    for _ in 0..count {
        push_words(alloc, &mut words, "-I file B")?;
    }
    push_words(alloc, &mut words, "-O drop")?;
    Ok(words)
}

/// Plays, and writes the status, how many names the desk was asked to open, how many lines were reported, and the last
/// of them.
fn write_short<R: Threads + Wait + Sync + AllocGlobal>(
    rt: &R,
    page: &mut Page,
    words: &[String],
) -> Result<(), AllocError> {
    let trial = called(rt, words, ORDINARY, None)?;
    write_end(page, &trial);
    Ok(())
}

fn write_end(page: &mut Page, trial: &Trial) {
    let status = &trial.status;
    let exit = status.exit_code();
    let asked = trial.asked_count();
    page.add(format_args!("{status:?}, exit {exit}, asked for {asked}"));
    write_lines(page, str::from_utf8(trial.reported()).unwrap_or(""));
}

/// Writes how many lines a text has, and the last of them.
fn write_lines(page: &mut Page, text: &str) {
    let lines = text.lines().count();
    let last = text.lines().last().unwrap_or("");
    page.add(format_args!(", lines {lines}, {last:?}\n"));
}
