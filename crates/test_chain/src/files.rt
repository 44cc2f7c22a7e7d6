//! Tests of files of the real desk.
use crate::compared::{same, same_bytes};
use std::process::Abort;
use std::test::Fail;
use std::{env, fs, process};
use ts_os::OsDesk;
use ts_outside::{Desk, Failed, FileFault, OpenFault, Sink, Source, write_whole};

// Why an input of this name does not open; `None` if it does.
fn input_fault(desk: &mut OsDesk, name: &str) -> Option<OpenFault> {
    match desk.open_in(Some(name)) {
        Ok(source) => {
            desk.close_in(source);
            None
        }
        Err(fault) => Some(fault),
    }
}

// Why an output of this name does not open; `None` if it does.
fn output_fault(desk: &mut OsDesk, name: &str) -> Option<OpenFault> {
    match desk.open_out(Some(name)) {
        Ok(sink) => match desk.close_out(sink) {
            Ok(()) => None,
            Err(Failed) => Some(OpenFault::Failed),
        },
        Err(fault) => Some(fault),
    }
}

// How many bytes one read of an input gives, and then a second one.
fn read_twice(desk: &mut OsDesk, name: &str, into: &mut [u8; 4]) -> Result<[usize; 2], Failed> {
    let Ok(mut source) = desk.open_in(Some(name)) else {
        return Err(Failed);
    };
    let first = source.read(into);
    let second = source.read(into);
    desk.close_in(source);
    Ok([first?, second?])
}

// Writes an output.
fn write(desk: &mut OsDesk, name: &str, bytes: &[u8]) -> Result<(), Failed> {
    let Ok(mut sink) = desk.open_out(Some(name)) else {
        return Err(Failed);
    };
    let written = write_whole(&mut sink, bytes);
    desk.close_out(sink)?;
    match written {
        Ok(()) => Ok(()),
        Err(_) => Err(Failed),
    }
}

// Why the whole file of this name is not read; `None` if it is.
fn whole_fault(desk: &mut OsDesk, name: &str, most: usize) -> Option<FileFault> {
    desk.read_file(Some(name), most).err()
}

// Opening an input, an output and a whole file fails.
fn none_opens(rt: &impl Abort, desk: &mut OsDesk) {
    let name = "no/such/file";
    let opened = (input_fault(desk, name), output_fault(desk, name));
    let failed = Some(OpenFault::Failed);
    same(rt, opened, (failed, failed));
    let whole = (whole_fault(desk, name, 9), whole_fault(desk, "/", 9));
    let failed = Some(FileFault::Failed);
    same(rt, whole, (failed, failed));
}

// A directory opens, and its first read fails. A full device opens, and its first write fails.
fn first_calls_fail(rt: &impl Abort, desk: &mut OsDesk) {
    let opened = (input_fault(desk, "/"), output_fault(desk, "/dev/full"));
    same(rt, opened, (None, None));
    let mut into = [0; 4];
    same(rt, read_twice(desk, "/", &mut into), Err(Failed));
    same(rt, write(desk, "/dev/full", b"abc"), Err(Failed));
}

#[test]
fn calls_fail(rt: HostRuntime) {
    let mut desk = OsDesk::new(rt);
    none_opens(&rt, &mut desk);
    first_calls_fail(&rt, &mut desk);
}

// Writes a file twice, and reads it in pieces.
fn is_written(rt: &impl Abort, desk: &mut OsDesk, name: &str) -> Result<(), Failed> {
    write(desk, name, b"abcdefgh")?;
    write(desk, name, b"abcdef")?;
    let mut into = [0; 4];
    same(rt, read_twice(desk, name, &mut into)?, [4, 2]);
    same_bytes(rt, &into[..2], b"ef");
    Ok(())
}

// Reads it whole, and with room for one byte less.
fn is_whole(rt: &impl Abort, desk: &mut OsDesk, name: &str) -> Result<(), Fail> {
    same(rt, whole_fault(desk, name, 5), Some(FileFault::TooMany));
    let whole = desk.read_file(Some(name), 6).ok().ok_or("read")?;
    same_bytes(rt, whole.as_slice(), b"abcdef");
    Ok(())
}

// The name of a file that nobody else writes.
fn file_name(rt: HostRuntime) -> Result<String, Fail> {
    let folder = env::temp_dir(&rt)?.into_string();
    let process = process::id(rt.process());
    Ok(format!(in rt.alloc(); "{folder}/ts_os-{process}")?)
}

// Writes a file of this name, and reads it.
fn goes_round(rt: &impl Abort, desk: &mut OsDesk, name: &str) -> Result<(), Fail> {
    is_written(rt, desk, name)?;
    is_whole(rt, desk, name)
}

// What was written is read back, in pieces and whole, and a second writing leaves nothing of the first.
#[test]
fn round_trip(rt: HostRuntime) -> Result<(), Fail> {
    let name = file_name(rt)?;
    let mut desk = OsDesk::new(rt);
    goes_round(&rt, &mut desk, name.as_str())?;
    fs::remove_file(&rt, name.as_str())?;
    Ok(())
}

// Opens and closes standard streams, and reports.
fn are_taken(rt: &impl Abort, desk: &mut OsDesk) {
    let input = input_fault(desk, "");
    let out = desk.report(b"out\n");
    let output = output_fault(desk, "");
    let err = desk.report(b"err\n");
    same(rt, (input, output), (None, None));
    same(rt, (out, err), (Ok(4), Ok(4)));
}

// The empty name is a standard stream, and a report is taken as a whole.
#[test]
fn standard_streams(rt: HostRuntime) {
    let mut desk = OsDesk::new(rt);
    are_taken(&rt, &mut desk);
}
