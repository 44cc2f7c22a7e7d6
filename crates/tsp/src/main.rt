//! The program `tsp`. It reads the words of the command line, runs `explained_call` over real files, explains on standard error
//! what failed, found nothing to edit or did not see a table change, where that is asked for, and ends with the exit number. What a
//! run does is the contract of that call, which is that of `tsp_call`: the stream theorem. The line for the end of a run whose
//! report is bare is written here, to standard error, since it is no part of the report.
#![tactic(auto)]

mod explaining;
mod form_seen;
mod note_texts;
mod run_texts;
mod terminal;

use explaining::explain;
use std::io::ErrorKind;
use std::process::ExitCode;
use std::{env, io};
use terminal::is_to_terminal;
use ts_os::{OsDesk, is_wanted, refuse_terminal, write_explained};
use ts_outside::{OpenGate, report_whole};
use tsp_top::{PluginNotes, explained_call};

/// The exit number if memory runs out before the call.
const NO_MEMORY: u8 = 1;

/// The exit number if a word is not UTF-8.
const FAULTY_WORDS: u8 = 2;

/// The exit number if packets would go to a terminal.
const TERMINAL: u8 = 2;

/// The words after the program's name.
fn words(rt: &(impl env::Env + AllocGlobal)) -> io::Result<Vec<String>> {
    let mut all = env::args(rt)?;
    let _name = all.next();
    Ok(all.collect(rt.alloc())?)
}

/// Writes the end line of a run whose report was bare to standard error. Where there is no memory for it, or it cannot be
/// written, it is left out.
fn tell_end(rt: &HostRuntime, notes: &PluginNotes) {
    if let Ok(Some(line)) = notes.end_line(rt.alloc()) {
        write_explained(rt, line.as_str());
    }
}

fn main(rt: HostRuntime) -> ExitCode {
    let mut desk = OsDesk::new(rt);
    let words = match words(&rt) {
        Ok(words) => words,
        Err(e) if e.kind() == ErrorKind::InvalidData => {
            let _ = report_whole(&mut desk, b"tsp: a word is not UTF-8\n");
            return ExitCode::from(FAULTY_WORDS);
        }
        Err(_) => return ExitCode::from(NO_MEMORY),
    };
    if is_to_terminal(&rt, words.as_slice()) {
        refuse_terminal(&rt);
        return ExitCode::from(TERMINAL);
    }
    let explained = is_wanted(&rt);
    if explained {
        desk.keep_file();
    }
    let end = explained_call(
        &rt,
        rt.alloc(),
        words.as_slice(),
        &mut desk,
        &OpenGate,
        explained,
    );
    tell_end(&rt, &end.notes);
    if explained {
        explain(&rt, words.as_slice(), &end, &desk);
    }
    ExitCode::from(end.status.exit_code())
}
