//! The program `tstabcomp`: the words of a command line come in, and an exit number goes out. All of it but
//! the words, the real desk, the number and what explains how a call ended is `tabcomp_call`, whose clause says all that a call
//! does.
#![tactic(auto)]

mod end_texts;
mod explained;

use explained::explain;
use std::io::ErrorKind;
use std::process::ExitCode;
use std::{env, io};
use tabcomp_top::tabcomp_call;
use ts_os::{OsDesk, is_wanted};
use ts_outside::report_whole;

/// The exit numbers of a start that never came to the call.
const NO_MEMORY: u8 = 1;

const FAULTY_WORDS: u8 = 2;

/// The words after the program's name.
fn words(rt: &(impl env::Env + AllocGlobal)) -> io::Result<Vec<String>> {
    let mut all = env::args(rt)?;
    let _name = all.next();
    Ok(all.collect(rt.alloc())?)
}

fn main(rt: HostRuntime) -> ExitCode {
    let mut desk = OsDesk::new(rt);
    let words = match words(&rt) {
        Ok(words) => words,
        Err(e) if e.kind() == ErrorKind::InvalidData => {
            let _ = report_whole(&mut desk, b"tstabcomp: a word is not UTF-8\n");
            return ExitCode::from(FAULTY_WORDS);
        }
        Err(_) => return ExitCode::from(NO_MEMORY),
    };
    let explained = is_wanted(&rt);
    if explained {
        desk.keep_file();
    }
    let status = tabcomp_call(rt.alloc(), words.as_slice(), &mut desk);
    if explained {
        explain(&rt, words.as_slice(), &status, &desk);
    }
    ExitCode::from(status.exit_code())
}
