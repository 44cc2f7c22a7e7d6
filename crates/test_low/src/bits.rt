//! Tests of bit fields, BCD numbers and descriptor loops: worked rows, and each call that allocates, once with enough
//! memory.

use crate::compared::{are_so_many, got, same, same_bytes};
use std::alloc::Global;
use std::process::Abort;
use ts_bits::{
    BcdFault, Descriptor, DescriptorList, LoopFault, ShortInput, bcd, bits, put_bcd, put_bits,
    read_loop, write_loop,
};

/// A place, a count of at most 64 bits, and their number.
type BitsRow = (usize, u32, Result<u64, ShortInput>);

/// Bits of the header of a null packet.
static NULL_BITS: [BitsRow; 9] = [
    (0, 8, Ok(0x47)),
    (9, 1, Ok(0)),
    (11, 13, Ok(8191)),
    (26, 2, Ok(1)),
    (28, 4, Ok(0)),
    (0, 32, Ok(0x471F_FF10)),
    (32, 0, Ok(0)),
    (25, 8, Err(ShortInput)),
    (usize::MAX, 64, Err(ShortInput)),
];

/// The rows. The content of a `static` is written into each function that names it.
fn null_bits() -> &'static [BitsRow] {
    &NULL_BITS
}

/// Checks the bits of a row.
fn has_bits(rt: &impl Abort, from: &[u8], row: &BitsRow) {
    let (at, count, wanted) = *row;
    let found = bits(from, at, count.min(64));
    same(rt, (at, count, found), (at, count, wanted));
}

#[test]
fn fields_of_a_null_packet(rt: HostRuntime) {
    let head = [0x47, 0x1F, 0xFF, 0x10];
    for row in null_bits() {
        has_bits(&rt, &head, row);
    }
}

/// Checks the bytes after 64 bits are put after the first five.
fn are_put(rt: &impl Abort, row: &mut [u8]) {
    let put = put_bits(row, 5, 64, 0x0123_4567_89AB_CDEF);
    same(rt, put, Ok(()));
    let wanted = [0xF8, 0x09, 0x1A, 0x2B, 0x3C, 0x4D, 0x5E, 0x6F, 0x7F];
    same_bytes(rt, row, &wanted);
}

#[test]
fn widest_number(rt: HostRuntime) {
    let mut row = [0xFF; 9];
    are_put(&rt, &mut row);
    same(&rt, bits(&row, 5, 64), Ok(0x0123_4567_89AB_CDEF));
    same(&rt, put_bits(&mut row, 9, 64, 0), Err(ShortInput));
}

/// A place, a count of at most eight digits, and their number.
type DecimalRow = (usize, u32, Result<u64, BcdFault>);

/// Digits of the duration 01:45:30.
static DURATION: [DecimalRow; 3] = [
    (0, 6, Ok(14530)),
    (4, 5, Ok(14530)),
    (8, 5, Err(BcdFault::Short)),
];

/// The rows.
fn duration() -> &'static [DecimalRow] {
    &DURATION
}

/// Checks the digits of a row.
fn has_digits(rt: &impl Abort, from: &[u8], row: &DecimalRow) {
    let (at, count, wanted) = *row;
    let found = bcd(from, at, count.min(8));
    same(rt, (at, count, found), (at, count, wanted));
}

/// Checks the bytes after the digits 59 are put into the second.
fn is_changed(rt: &impl Abort, row: &mut [u8]) {
    same(rt, put_bcd(row, 8, 4, 59), Ok(()));
    same_bytes(rt, row, &[0x01, 0x00, 0x59]);
}

#[test]
fn a_duration(rt: HostRuntime) {
    let mut row = [0x01, 0x45, 0x30];
    for digits in duration() {
        has_digits(&rt, &row, digits);
    }
    is_changed(&rt, &mut row);
}

#[test]
fn no_duration(rt: HostRuntime) {
    let mut row = [0x01, 0x0A, 0x59];
    same(&rt, bcd(&row, 0, 6), Err(BcdFault::Digit { place: 3 }));
    same(&rt, put_bcd(&mut row, 20, 2, 0), Err(ShortInput));
}

/// Checks a descriptor.
fn has(rt: &impl Abort, descriptor: &Descriptor, tag: u8, body: &[u8]) {
    same(rt, descriptor.tag(), tag);
    same_bytes(rt, descriptor.body(), body);
}

/// Checks that descriptors are these.
fn are_two(rt: &impl Abort, descriptors: &[Descriptor]) {
    are_so_many(rt, descriptors.len(), 2);
    has(rt, &descriptors[0], 9, &[0x0B, 0x00, 0xE1, 0x00]);
    has(rt, &descriptors[1], 10, &[]);
}

/// Checks the bytes that a copy of a list is written as.
fn is_written(rt: &(impl Abort + AllocGlobal), list: &DescriptorList, wanted: &[u8]) {
    let copied = got(rt, list.copy());
    let written = got(rt, write_loop(rt.alloc(), copied.as_slice()));
    same_bytes(rt, &written, wanted);
}

#[test]
fn two_descriptors(rt: HostRuntime) {
    // The second is without a body.
    let bytes = [0x09, 0x04, 0x0B, 0x00, 0xE1, 0x00, 0x0A, 0x00];
    let list = got(&rt, read_loop(rt.alloc(), &bytes));
    are_two(&rt, list.as_slice());
    is_written(&rt, &list, &bytes);
}

#[test]
fn cut_descriptors(rt: HostRuntime) {
    let alloc = rt.alloc();
    let cut = fault(alloc, &[0x0A, 0x00, 0x52]);
    same(&rt, cut, Some(LoopFault::Cut { offset: 2 }));
    let cut = fault(alloc, &[0x52, 0x02, 0x00]);
    same(&rt, cut, Some(LoopFault::Cut { offset: 0 }));
    same(&rt, fault(alloc, &[]), None);
}

/// Why bytes are not a descriptor loop; `None` if they are.
fn fault(alloc: Global, bytes: &[u8]) -> Option<LoopFault> {
    read_loop(alloc, bytes).err()
}

/// The copy of a descriptor of one byte.
fn copied(rt: &(impl Abort + AllocGlobal)) -> Descriptor {
    let descriptor = got(rt, Descriptor::new(rt.alloc(), 0x52, &[7]));
    got(rt, descriptor.copy())
}

/// Checks that it is the only one.
fn is_alone(rt: &impl Abort, made: &[Descriptor]) {
    are_so_many(rt, made.len(), 1);
    has(rt, &made[0], 0x52, &[7]);
}

/// It is appended to a list, and taken out again.
#[test]
fn copies(rt: HostRuntime) {
    let made = got(&rt, vec![in rt.alloc(); copied(&rt)]);
    is_alone(&rt, &DescriptorList::of(made).into_vec());
}
