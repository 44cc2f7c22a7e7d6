//! What the programs share where they explain how a call ended, on standard error alone: whether that is asked for, and what is said of
//! a file by its name. No clause says any of it.
use crate::trouble::Trouble;
use std::alloc::{AllocError, Global};
use std::env;
use std::io::{IsTerminal, Write};

/// Whether a call is to be explained: as `TSP_EXPLAIN` says by 1 or 0, and else where standard error is a terminal.
pub fn is_wanted(rt: &HostRuntime) -> bool {
    match env::var(rt, "TSP_EXPLAIN") {
        Ok(said) if said.as_str() == "1" => true,
        Ok(said) if said.as_str() == "0" => false,
        _ => rt.stderr().is_terminal(),
    }
}

/// Writes a text to standard error. A fault of that changes nothing.
pub fn write_explained(rt: &HostRuntime, text: &str) {
    let _ = rt.stderr().write_all(text.as_bytes());
}

/// Puts a text from outside after another one, so that no terminal is moved by it: each control character, U+0000 to U+001F and
/// U+007F to U+009F, is a question mark.
pub fn put_shown(text: &mut String, outside: &str) -> Result<(), AllocError> {
    for character in outside.chars() {
        text.push(if character.is_control() {
            '?'
        } else {
            character
        })?;
    }
    Ok(())
}

/// A text after the name of the file of which it is said.
pub fn after_name(alloc: Global, name: &str, text: &str) -> Result<String, AllocError> {
    let mut line = String::new(alloc);
    put_shown(&mut line, name)?;
    line.push_str(": ")?;
    line.push_str(text)?;
    Ok(line)
}

/// What is said of a file that the system refused: its name and the reason, in one line.
pub fn trouble_text(alloc: Global, name: &str, trouble: Trouble) -> Result<String, AllocError> {
    let mut line = after_name(alloc, name, trouble.reason.text())?;
    line.push('\n')?;
    Ok(line)
}

/// Says on standard error that packets are not written to a terminal, and what may be given instead.
pub fn refuse_terminal(rt: &HostRuntime) {
    write_explained(
        rt,
        "packets are not written to a terminal: -O drop writes none, -O file NAME writes a file\n",
    );
}
