//! Calls of a list, one a line: the result of each by `tsp_call`, and whether `serial_call` gives the same.
use crate::listed_desk::{desk_of, words_of};
use crate::trial::Trial;
use std::fs::Files;
use std::sync::Wait;
use std::thread::Threads;
use std::{fs, io};
use ts_outside::OpenGate;
use tsp_top::{serial_call, tsp_call};

/// Makes the calls of the list of this name, and prints a line for each.
pub(crate) fn print_listed<R: Threads + Wait + Sync + Print + AllocGlobal + Files>(
    rt: &R,
    name: &str,
) -> io::Result<()> {
    let list = fs::read_to_string(rt, name)?;
    for line in list.lines() {
        print_call(rt, line)?;
    }
    Ok(())
}

/// Prints the result of a line's call.
fn print_call<R: Threads + Wait + Sync + Print + AllocGlobal + Files>(
    rt: &R,
    line: &str,
) -> io::Result<()> {
    let trial = by_tsp_call(rt, line)?;
    let is_alike = is_serial_alike(rt, line, &trial)?;
    print_found(rt, is_alike, &trial)
}

/// A line's call, by `tsp_call`.
fn by_tsp_call<R: Threads + Wait + Sync + AllocGlobal + Files>(
    rt: &R,
    line: &str,
) -> io::Result<Trial> {
    let words = words_of(rt.alloc(), line)?;
    let mut desk = desk_of(rt, line)?;
    let status = tsp_call(rt, rt.alloc(), words.as_slice(), &mut *desk, &OpenGate);
    Ok(Trial { desk, status })
}

/// Whether a line's call by `serial_call` gives this result, too.
fn is_serial_alike(rt: &(impl AllocGlobal + Files), line: &str, trial: &Trial) -> io::Result<bool> {
    let serial = by_serial_call(rt, line)?;
    Ok(trial.is_like(rt.alloc(), &serial)?)
}

/// A line's call, by `serial_call`.
fn by_serial_call(rt: &(impl AllocGlobal + Files), line: &str) -> io::Result<Trial> {
    let words = words_of(rt.alloc(), line)?;
    let mut desk = desk_of(rt, line)?;
    let status = serial_call(rt.alloc(), words.as_slice(), &mut *desk, &OpenGate);
    Ok(Trial { desk, status })
}

/// Prints, separated by blanks: whether both calls gave the same, the exit number, how many names were asked for, how many outputs
/// there are, and the report and the first output as hexadecimal digits between bars.
fn print_found(rt: &(impl Print + AllocGlobal), is_alike: bool, trial: &Trial) -> io::Result<()> {
    let exit = trial.status.exit_code();
    let asked = trial.desk.asked_count();
    let outputs = trial.desk.output_count();
    let reported = hex::encode(rt.alloc(), trial.desk.reported())?;
    let written = hex::encode(rt.alloc(), trial.written())?;
    println!(rt; "{is_alike} {exit} {asked} {outputs} |{reported}|{written}|")
}
