//! The words and the desk of a call that is a line of a list.
//!
//! Blanks separate the fields of a line. The first five are the numbers of the calls that fail, separated by commas: of the openings,
//! reads, writes, reports and closings. Then come the most bytes that a read and a write move, the room of an output, and the
//! files. All after these are words.
ghost use Rattle.std.specs.Prelude.{◌≡◌, ◌<◌, IfOk};

use crate::trial_desk::boxed_desk;
use std::alloc::{AllocError, Global};
use std::fs::Files;
use std::{fs, io};
use ts_outside::{FailPlan, FileBytes, FileList, MemoryDesk, NameText, NumberList};

/// How many fields come before the words.
const FIELDS: usize = 9;

/// The words of a line's call.
pub(crate) fn words_of(alloc: Global, line: &str) -> Result<Vec<String>, AllocError> {
    let mut words = Vec::new(alloc);
    for (number, word) in line.split(' ').enumerate() {
        if FIELDS <= number {
            words.push(String::from_str(alloc, word)?)?;
        }
    }
    Ok(words)
}

/// The desk of a line's call, with its plan and its files.
pub(crate) fn desk_of(rt: &(impl AllocGlobal + Files), line: &str) -> io::Result<Box<MemoryDesk>> {
    let files = files_of(rt, field(line, 8))?;
    let plan = plan_of(rt.alloc(), line)?;
    Ok(boxed_desk(rt.alloc(), files, plan)?)
}

/// The field of this number, the empty one where there are not so many.
fn field(line: &str, number: usize) -> &str {
    line.split(' ').nth(number).unwrap_or("")
}

/// The plan of a line. A desk has no pieces of 0 bytes: they have one byte.
fn plan_of(alloc: Global, line: &str) -> Result<FailPlan, AllocError>
    ensures { IfOk result (λ p. (0 < p.read_piece) × (0 < p.write_piece)) }
{
    let read_piece = size_of(field(line, 5)).max(1);
    let write_piece = size_of(field(line, 6)).max(1);
    let mut plan = FailPlan::none(alloc, read_piece, write_piece, size_of(field(line, 7)));
    fill(alloc, &mut plan, line)?;
    Ok(plan)
}

/// Puts the numbers of the calls that fail into a plan. Nothing else is held while room for them is taken.
fn fill(alloc: Global, plan: &mut FailPlan, line: &str) -> Result<(), AllocError>
    ensures { (plan.new.read_piece ≡ plan.old.read_piece) × (plan.new.write_piece ≡ plan.old.write_piece) }
{
    set(alloc, &mut plan.opens, field(line, 0))?;
    set(alloc, &mut plan.reads, field(line, 1))?;
    set(alloc, &mut plan.writes, field(line, 2))?;
    set(alloc, &mut plan.reports, field(line, 3))?;
    set(alloc, &mut plan.closes, field(line, 4))
}

/// Replaces a list by the numbers that commas separate; a part that is no number is left out.
fn set(alloc: Global, list: &mut NumberList, field: &str) -> Result<(), AllocError> {
    *list = NumberList::of(numbers_of(alloc, field)?);
    Ok(())
}

/// The numbers that commas separate.
fn numbers_of(alloc: Global, field: &str) -> Result<Vec<u64>, AllocError> {
    let mut numbers = Vec::new(alloc);
    for text in field.split(',') {
        if let Ok(number) = text.parse::<u64>() {
            numbers.push(number)?;
        }
    }
    Ok(numbers)
}

/// A number of bytes, 0 for a text that is no number.
fn size_of(field: &str) -> usize {
    field.parse::<usize>().unwrap_or(0)
}

/// The files that commas separate, each by its name on the desk, a colon and the path of its bytes.
fn files_of(rt: &(impl AllocGlobal + Files), field: &str) -> io::Result<FileList> {
    let mut files = Vec::new(rt.alloc());
    for text in field.split(',') {
        if let Some((name, path)) = text.split_once(':') {
            let bytes = fs::read(rt, path)?;
            let name = String::from_str(rt.alloc(), name)?;
            files.push((NameText::of(name), FileBytes::of(bytes)))?;
        }
    }
    Ok(FileList::of(files))
}
