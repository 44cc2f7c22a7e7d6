//! Prints the sections and tables of some PIDs of a stream, each as soon as it is complete: of three real streams, or
//! of the stream that the first word names, on the PIDs that the other words name. Other tools made the three
//! streams; what is printed has to be what other tools read from them (`tests/layouts`).
#![tactic(auto)]

mod descriptors;
mod eit;
mod page;
mod pid;
mod psi;
mod si;
mod table;
mod written;

use crate::pid::print_pid;
use anyhow::{Context, Result};
use std::fs::Files;
use std::{env, fs, io};

/// A stream, and its PIDs that carry sections.
struct Stream {
    name: &'static str,
    pids: &'static [u16],
}

const STREAMS: [Stream; 3] = [
    Stream {
        name: "af_zoo.ts",
        pids: &[0, 32],
    },
    Stream {
        name: "bits_si.ts",
        pids: &[0, 1, 2, 16, 17, 18, 19, 20, 30, 31, 100, 200],
    },
    Stream {
        name: "dvbpsi_si.ts",
        pids: &[0, 1, 16, 17, 18, 20, 256, 512, 768],
    },
];

fn main(rt: HostRuntime) -> Result<()> {
    let mut words = env::args(&rt)?;
    let _name = words.next();
    match words.next() {
        Some(name) => {
            let bytes = fs::read(&rt, name.as_str())?;
            for word in words {
                print_word(&rt, word.as_str(), bytes.as_slice())?;
            }
            Ok(())
        }
        None => print_stored(&rt),
    }
}

/// Prints the PID that a word gives.
fn print_word(rt: &(impl Print + AllocGlobal), word: &str, stream: &[u8]) -> Result<()> {
    let pid = word
        .parse::<u16>()
        .context(format_args!("reading {word:?}"))?;
    Ok(print_pid(rt, pid, stream)?)
}

/// Prints the three streams that are stored beside the program.
fn print_stored(rt: &(impl Print + AllocGlobal + Files)) -> Result<()> {
    for stream in &STREAMS {
        println!(rt; "{}", stream.name)?;
        print_stream(rt, stream)?;
    }
    Ok(())
}

/// Prints a stored stream.
fn print_stream(rt: &(impl Print + AllocGlobal + Files), stream: &Stream) -> io::Result<()> {
    let bytes = fs::read(rt, stream.name)?;
    for pid in stream.pids {
        print_pid(rt, *pid, bytes.as_slice())?;
    }
    Ok(())
}
