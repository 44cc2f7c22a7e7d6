//! Tests of the desk in memory, and of a desk whose calls never fail.
ghost use Rattle.std.specs.Prelude.{◌≡◌, IfOk};

use crate::callers::{CopyEnd, copy};
use crate::compared::{holds, same, same_bytes};
use std::alloc::{AllocError, Global};
use std::process::Abort;
use std::test::Fail;
use ts_outside::{
    Desk, FailPlan, FileBytes, FileFault, FileList, Gate, MemoryDesk, NameText, NumberList,
    OpenGate, PreallocatedDesk, Source, read_to_end,
};

// The one call that fails: its kind, and its number, counted from 1.
#[derive(Clone, Copy)]
enum Fails {
    Never,
    Open(u64),
    Read(u64),
    Write(u64),
    Report(u64),
    Close(u64),
}

fn numbers(alloc: Global, all: &[u64]) -> Result<NumberList, AllocError> {
    Ok(NumberList::of(Vec::from_slice(alloc, all)?))
}

fn file(alloc: Global, name: &str, count: usize) -> Result<(NameText, FileBytes), AllocError> {
    let mut bytes = Vec::new(alloc);
    for _ in 0..count {
        bytes.push(7)?;
    }
    let name = NameText::of(String::from_str(alloc, name)?);
    Ok((name, FileBytes::of(bytes)))
}

// Three files: `long` of 400 bytes, `short` of 5, and a second `long` without bytes.
fn files(alloc: Global) -> Result<FileList, AllocError> {
    let mut files = Vec::new(alloc);
    files.push(file(alloc, "long", 400)?)?;
    files.push(file(alloc, "short", 5)?)?;
    files.push(file(alloc, "long", 0)?)?;
    Ok(FileList::of(files))
}

// The number of the failing call, counted from 1; 0 if none fails.
fn number_of(fails: Fails) -> u64 {
    match fails {
        Fails::Never => 0,
        Fails::Open(number) => number,
        Fails::Read(number) => number,
        Fails::Write(number) => number,
        Fails::Report(number) => number,
        Fails::Close(number) => number,
    }
}

// A plan by which a desk reads at most 100 bytes in a call and writes at most 70.
fn plan(alloc: Global, fails: Fails, room: usize) -> Result<FailPlan, AllocError>
    ensures { IfOk result (λ p. (p.read_piece ≡ 100) × (p.write_piece ≡ 70)) }
{
    let list = numbers(alloc, &[number_of(fails)])?;
    let mut plan = FailPlan::none(alloc, 100, 70, room);
    match fails {
        Fails::Never => {}
        Fails::Open(_) => plan.opens = list,
        Fails::Read(_) => plan.reads = list,
        Fails::Write(_) => plan.writes = list,
        Fails::Report(_) => plan.reports = list,
        Fails::Close(_) => plan.closes = list,
    }
    Ok(plan)
}

fn planned(alloc: Global, fails: Fails, room: usize) -> Result<Box<MemoryDesk>, AllocError> {
    let files = files(alloc)?;
    let plan = plan(alloc, fails, room)?;
    Ok(Box::new(alloc, MemoryDesk::new(alloc, files, plan)?)?)
}

// Copies a file, and returns only the end of the copy.
fn copied<D: Desk>(desk: &mut D, from: &str, to: Option<&str>) -> CopyEnd {
    copy(desk, Some(from), to)
}

// How many bytes an output has; 0 without such an output.
fn output_len(desk: &MemoryDesk, i: usize) -> usize {
    match desk.output(i) {
        Some((_, bytes)) => bytes.len(),
        None => 0,
    }
}

// A copy of the long file: which call fails, how much room outputs have, and the result: the end, how many outputs
// there are, and how many bytes the first has.
#[derive(Drop)]
struct CopyRow {
    fails: Fails,
    room: usize,
    end: CopyEnd,
    outputs: usize,
    bytes: usize,
}

// A macro, since a `static` calls no function.
macro_rules! rows {
    ($($fails:expr, $room:literal, $end:expr, $outputs:literal, $bytes:literal;)*) => {
        [$(CopyRow { fails: $fails, room: $room, end: $end, outputs: $outputs, bytes: $bytes }),*]
    };
}

// How a copy of the long file ended, how many outputs there are, and how many bytes the first has.
fn told_by(desk: &mut MemoryDesk) -> (CopyEnd, usize, usize) {
    let end = copied(desk, "long", Some("to"));
    (end, desk.output_count(), output_len(desk, 0))
}

// The same of a desk whose calls fail as the row says.
fn told(alloc: Global, row: &CopyRow) -> Result<(CopyEnd, usize, usize), AllocError> {
    let mut desk = planned(alloc, row.fails, row.room)?;
    Ok(told_by(&mut *desk))
}

// Checks the records of a desk from which a file was copied and one that does not exist.
fn tells_two(rt: &impl Abort, desk: &mut MemoryDesk) {
    let first = copied(desk, "long", None);
    let second = copied(desk, "unknown", Some("to"));
    same(rt, (first, second), (CopyEnd::Done, CopyEnd::Done));
    let counts = (desk.asked_count(), desk.output_count());
    same(rt, counts, (4, 2));
    same(rt, (output_len(desk, 0), output_len(desk, 1)), (400, 0));
    same_bytes(rt, desk.reported(), b"donedone");
    holds(rt, desk.output(2).is_none());
}

#[test]
fn a_copy_is_told(rt: HostRuntime) -> Result<(), Fail> {
    let mut desk = planned(rt.alloc(), Fails::Never, 1000)?;
    tells_two(&rt, &mut *desk);
    Ok(())
}

// Checks the name and the bytes of the first output.
fn is_output(rt: &impl Abort, desk: &MemoryDesk, name: &[u8], bytes: &[u8]) {
    match desk.output(0) {
        Some((found_name, found_bytes)) => {
            same_bytes(rt, found_name.as_bytes(), name);
            same_bytes(rt, found_bytes, bytes);
        }
        None => holds(rt, false),
    }
}

// Checks the output to which a short file was copied.
fn names_one(rt: &impl Abort, desk: &mut MemoryDesk) {
    same(rt, copied(desk, "short", Some("to")), CopyEnd::Done);
    is_output(rt, desk, b"to", &[7; 5]);
}

#[test]
fn an_output_has_its_name(rt: HostRuntime) -> Result<(), Fail> {
    let mut desk = planned(rt.alloc(), Fails::Never, 1000)?;
    names_one(&rt, &mut *desk);
    Ok(())
}

// The long file is read as two packets and a rest, by 100 and 88, by 100 and 88, and by 24 bytes; then it ends.
static COPIES: [CopyRow; 10] = rows![
    Fails::Never, 1000, CopyEnd::Done, 1, 400;
    Fails::Open(1), 1000, CopyEnd::ReadFault, 0, 0;
    Fails::Open(2), 1000, CopyEnd::WriteFault, 0, 0;
    Fails::Read(4), 1000, CopyEnd::WriteFault, 1, 188;
    Fails::Read(7), 1000, CopyEnd::Done, 1, 400;
    Fails::Write(2), 1000, CopyEnd::WriteFault, 1, 70;
    Fails::Never, 200, CopyEnd::WriteFault, 1, 200;
    Fails::Close(1), 1000, CopyEnd::WriteFault, 1, 400;
    Fails::Report(1), 1000, CopyEnd::WriteFault, 1, 400;
    Fails::Close(2), 1000, CopyEnd::Done, 1, 400;
];

fn copies() -> &'static [CopyRow] {
    &COPIES
}

#[test]
fn calls_fail_where_the_plan_or_the_room_says_so(rt: HostRuntime) -> Result<(), Fail> {
    for row in copies() {
        let wanted = (row.end, row.outputs, row.bytes);
        same(&rt, told(rt.alloc(), row)?, wanted);
    }
    Ok(())
}

// How many bytes a file has, if it has at most `most`.
fn read<D: Desk>(desk: &mut D, name: Option<&str>, most: usize) -> Result<usize, FileFault> {
    Ok(desk.read_file(name, most)?.as_slice().len())
}

// Checks how a short file is read whole; its third opening fails.
fn reads_whole(rt: &impl Abort, desk: &mut MemoryDesk) {
    let found = [
        read(desk, Some("short"), 5),
        read(desk, Some("short"), 4),
        read(desk, Some("short"), 5),
        read(desk, None, 0),
    ];
    let wanted = [
        Ok(5),
        Err(FileFault::TooMany),
        Err(FileFault::Failed),
        Ok(0),
    ];
    same(rt, found, wanted);
    same(rt, desk.asked_count(), 4);
}

#[test]
fn files_are_read_whole(rt: HostRuntime) -> Result<(), Fail> {
    let mut desk = planned(rt.alloc(), Fails::Open(3), 1000)?;
    reads_whole(&rt, &mut *desk);
    Ok(())
}

// A desk on which no call fails, in a box, since it is large.
fn preallocated(alloc: Global) -> Result<Box<PreallocatedDesk>, AllocError> {
    let files = files(alloc)?;
    Ok(Box::new(alloc, PreallocatedDesk::new(alloc, files)?)?)
}

// Checks the counts of such a desk.
fn counts(rt: &impl Abort, desk: &mut PreallocatedDesk) {
    let first = copied(desk, "long", Some("to"));
    let second = copied(desk, "short", Some("to"));
    same(rt, (first, second), (CopyEnd::Done, CopyEnd::Done));
    let counts = (desk.written_count(), desk.reported_count());
    same(rt, counts, (405, 8));
    same(rt, read(desk, Some("short"), 5), Ok(5));
}

#[test]
fn a_preallocated_desk_counts(rt: HostRuntime) -> Result<(), Fail> {
    let mut desk = preallocated(rt.alloc())?;
    counts(&rt, &mut *desk);
    Ok(())
}

// The value, which has to be of a type that may be sent to another thread.
fn sent<T: Send>(value: T) -> T {
    value
}

// How many bytes a source has, if it has at most `most`.
fn read_len<S: Source>(alloc: Global, source: &mut S, most: usize) -> Result<usize, FileFault> {
    Ok(read_to_end(alloc, source, most)?.as_slice().len())
}

// Opens and closes an output, whose type may be sent. Whether it opens.
fn opens_output<D: Desk>(desk: &mut D) -> bool {
    match desk.open_out(None) {
        Ok(output) => {
            let _ = desk.close_out(sent(output));
            true
        }
        Err(_) => false,
    }
}

// Opens a file, whose source's type may be sent, and reads it whole.
fn crossed<D: Desk>(
    alloc: Global,
    desk: &mut D,
    name: &str,
    most: usize,
) -> Result<usize, FileFault> {
    match desk.open_in(Some(name)) {
        Ok(input) => {
            let mut input = sent(input);
            let read = read_len(alloc, &mut input, most);
            desk.close_in(input);
            read
        }
        Err(_) => Err(FileFault::Failed),
    }
}

// What was read of a desk's file, and whether an output opens.
type Crossed = (Result<usize, FileFault>, bool);

fn memory_crossed(alloc: Global) -> Result<Crossed, AllocError> {
    let mut desk = planned(alloc, Fails::Never, 1000)?;
    let read = crossed(alloc, &mut *desk, "short", 5);
    Ok((read, opens_output(&mut *desk)))
}

fn preallocated_crossed(alloc: Global) -> Result<Crossed, AllocError> {
    let mut desk = preallocated(alloc)?;
    let read = crossed(alloc, &mut *desk, "long", 399);
    Ok((read, opens_output(&mut *desk)))
}

#[test]
fn sources_and_sinks_may_cross_threads(rt: HostRuntime) -> Result<(), Fail> {
    same(&rt, memory_crossed(rt.alloc())?, (Ok(5), true));
    let fault = Err(FileFault::TooMany);
    same(&rt, preallocated_crossed(rt.alloc())?, (fault, true));
    Ok(())
}

// The length of a name that is copied.
fn name_len(name: &NameText) -> Result<usize, AllocError> {
    Ok(name.copy()?.into_string().len())
}

// How many bytes there are, copied.
fn bytes_len(bytes: &FileBytes) -> Result<usize, AllocError> {
    Ok(bytes.copy()?.into_vec().len())
}

// The lengths of the name and of the bytes of a copied file.
fn copied_lens(alloc: Global) -> Result<(usize, usize), AllocError> {
    let (name, bytes) = file(alloc, "a b", 3)?;
    Ok((name_len(&name)?, bytes_len(&bytes)?))
}

fn file_count(alloc: Global) -> Result<usize, AllocError> {
    Ok(files(alloc)?.into_vec().len())
}

// A list of 3 and 1, copied.
fn three_and_one(alloc: Global) -> Result<NumberList, AllocError> {
    numbers(alloc, &[3, 1])?.copy()
}

// Whether that list has 1 and has 2, and how many numbers it has.
fn told_of_numbers(alloc: Global) -> Result<(bool, bool, usize), AllocError> {
    let list = three_and_one(alloc)?;
    Ok((list.has(1), list.has(2), list.into_vec().len()))
}

#[test]
fn texts_and_lists_keep_what_they_hold(rt: HostRuntime) -> Result<(), Fail> {
    same(&rt, copied_lens(rt.alloc())?, (3, 3));
    same(&rt, file_count(rt.alloc())?, 3);
    same(&rt, told_of_numbers(rt.alloc())?, (true, false, 2));
    Ok(())
}

#[test]
fn the_open_gate_holds_nobody() {
    OpenGate.enter(1, 0, 7);
    OpenGate.leave(1);
}
