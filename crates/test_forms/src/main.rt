//! Reads files in memory in each packet form, with as many bytes a read as a row says, and prints the number of bytes
//! of packets and a sum of them. Further rows have a read that fails, what is left of the file itself, and reads that
//! return at most 1 to 1,000 bytes.
#![tactic(auto)]

ghost use Rattle.std.specs.Prelude.{◌<◌};

mod drains;
mod files;

use drains::{Came, read_once, read_twice};
use files::{preallocated_desk, slow_desk};
use packet_forms::Form;
use std::alloc::{AllocError, Global};
use std::io;

/// A file of this size that is read in this form.
#[derive(Clone, Copy)]
struct Row {
    form: Form,
    size: usize,
}

impl Row {
    fn of(form: Form, size: usize) -> Row {
        Row { form, size }
    }
}

/// Two packets with their 16 bytes, of which the last are missing; two units and 14 bytes; two and three; two
/// packets and 16 bytes.
fn rows() -> [Row; 4] {
    [
        Row::of(Form::Rs204, 392),
        Row::of(Form::M2ts, 398),
        Row::of(Form::M2ts, 387),
        Row::of(Form::Ts, 392),
    ]
}

/// Prints what a file gave that was read to its end or a fault, and then once more.
fn print_twice(
    rt: &HostRuntime,
    row: Row,
    most: usize,
    came: Option<(Came, Came)>,
) -> io::Result<()> {
    let Row { form, size } = row;
    match came {
        Some((first, second)) => {
            println!(rt; "{form:?} {size} by {most}: {first:?}, then {second:?}")
        }
        None => println!(rt; "{form:?} {size}: not opened"),
    }
}

/// What a row's file gives with at most this number of bytes a read.
fn preallocated_twice(
    alloc: Global,
    row: Row,
    most: usize,
) -> Result<Option<(Came, Came)>, AllocError> {
    let mut room = vec![in alloc; 0u8; most]?;
    let mut desk = preallocated_desk(alloc, row.size)?;
    Ok(read_twice(&mut desk, row.form, &mut room))
}

/// What a row's file gives where a read returns at most this number of bytes and the reads with these numbers fail.
fn slow_twice(
    alloc: Global,
    row: Row,
    piece: usize,
    failing: &[u64],
) -> Result<Option<(Came, Came)>, AllocError>
    requires { 0 < piece }
{
    let mut room = vec![in alloc; 0u8; 188]?;
    let mut desk = slow_desk(alloc, row.size, piece, failing)?;
    Ok(read_twice(&mut desk, row.form, &mut room))
}

/// What one read of a row's file gives, and then the rest of the file itself.
fn preallocated_once(alloc: Global, row: Row) -> Result<Option<(usize, Came)>, AllocError> {
    let mut room = vec![in alloc; 0u8; 188]?;
    let mut desk = preallocated_desk(alloc, row.size)?;
    Ok(read_once(&mut desk, row.form, &mut room))
}

/// The number of reading sizes from 1 to 1,000 bytes with which the file gives this.
fn sizes_alike(alloc: Global, row: Row, wanted: Option<(Came, Came)>) -> Result<u32, AllocError> {
    let mut alike: u32 = 0;
    for piece in 1..=1000usize {
        if slow_twice(alloc, row, piece, &[])? == wanted {
            alike = alike.saturating_add(1);
        }
    }
    Ok(alike)
}

/// Prints what comes with each of these numbers of bytes a read.
fn print_preallocated(rt: &HostRuntime, row: Row, sizes: &[usize]) -> io::Result<()> {
    for most in sizes {
        let came = preallocated_twice(rt.alloc(), row, *most)?;
        print_twice(rt, row, *most, came)?;
    }
    Ok(())
}

/// Prints what comes where the second read fails.
fn print_failing(rt: &HostRuntime, row: Row) -> io::Result<()> {
    let came = slow_twice(rt.alloc(), row, 4, &[2])?;
    print_twice(rt, row, 188, came)
}

/// Prints what one read gives, and what is left of the file itself.
fn print_once(rt: &HostRuntime, row: Row) -> io::Result<()> {
    match preallocated_once(rt.alloc(), row)? {
        Some((count, rest)) => println!(rt; "  one read: {count} bytes, left {rest:?}"),
        None => Ok(()),
    }
}

/// Prints how many reading sizes give the same.
fn print_alike(rt: &HostRuntime, row: Row) -> io::Result<()> {
    let whole = preallocated_twice(rt.alloc(), row, 188)?;
    let alike = sizes_alike(rt.alloc(), row, whole)?;
    println!(rt; "  {alike} sizes of a read alike")
}

/// Prints all of a row.
fn print_row(rt: &HostRuntime, row: Row) -> io::Result<()> {
    print_preallocated(rt, row, &[1, 3, 187, 1000])?;
    print_failing(rt, row)?;
    print_once(rt, row)?;
    print_alike(rt, row)
}

fn main(rt: HostRuntime) -> io::Result<()> {
    for row in rows() {
        print_row(&rt, row)?;
    }
    Ok(())
}
