//! The program `tsswitch`: the words of a command line come in, and an exit status goes out. All but the words, the
//! real desk, the status and what explains it is `explained_switch_call`, whose contract says what is played.
#![tactic(auto)]

mod end_texts;
mod explained;
mod terminal;

use explained::explain;
use std::alloc::AllocError;
use std::io::ErrorKind;
use std::process::ExitCode;
use std::{env, io};
use switch_args::{WordsFault, read_words};
use switch_top::explained_switch_call;
use terminal::is_to_terminal;
use ts_os::{OsDesk, refuse_terminal};
use ts_outside::{OpenGate, report_whole};

/// The exit status if memory runs out before the call.
const NO_MEMORY: u8 = 1;

/// The exit status if a word is not UTF-8.
const FAULTY_WORDS: u8 = 2;

/// The exit status if packets would go to a terminal.
const TERMINAL: u8 = 2;

/// The words after the program's name.
fn words(rt: &(impl env::Env + AllocGlobal)) -> io::Result<Vec<String>> {
    let mut all = env::args(rt)?;
    let _name = all.next();
    Ok(all.collect(rt.alloc())?)
}

/// Protects the inputs of the words. The output is opened before them, and would be emptied before an input that is the same file
/// is read. Words that are not of the form name no inputs; the call refuses them.
fn protect_inputs(rt: &HostRuntime, desk: &mut OsDesk, words: &[String]) -> Result<(), AllocError> {
    match read_words(rt.alloc(), words) {
        Ok(settings) => desk.protect(settings.inputs.as_slice()),
        Err(WordsFault::At { word: _ }) => Ok(()),
        Err(WordsFault::NoMemory) => Err(AllocError),
    }
}

fn main(rt: HostRuntime) -> ExitCode {
    let mut desk = OsDesk::new(rt);
    let words = match words(&rt) {
        Ok(words) => words,
        Err(e) if e.kind() == ErrorKind::InvalidData => {
            let _ = report_whole(&mut desk, b"tsswitch: a word is not UTF-8\n");
            return ExitCode::from(FAULTY_WORDS);
        }
        Err(_) => return ExitCode::from(NO_MEMORY),
    };
    if is_to_terminal(&rt, words.as_slice()) {
        refuse_terminal(&rt);
        return ExitCode::from(TERMINAL);
    }
    if protect_inputs(&rt, &mut desk, words.as_slice()).is_err() {
        return ExitCode::from(NO_MEMORY);
    }
    let end = explained_switch_call(&rt, rt.alloc(), words.as_slice(), &mut desk, &OpenGate);
    explain(&rt, words.as_slice(), &end, desk.noted().trouble());
    ExitCode::from(end.status.exit_code())
}
