//! Tables that several tests make from bytes, and of many descriptors.

use crate::compared::{are_so_many, got, same_bytes};
use std::process::Abort;
use ts_bits::{Descriptor, DescriptorList};
use ts_section::{Section, TableRun};

/// A table of one section with these bytes.
pub(crate) fn run_of(rt: &(impl Abort + AllocGlobal), bytes: &[u8]) -> TableRun {
    let section = got(rt, Section::parse(rt.alloc(), bytes));
    let sections = got(rt, vec![in rt.alloc(); section]);
    got(rt, TableRun::of(sections))
}

/// Checks that there is one section, with these bytes.
pub(crate) fn is_one_section(rt: &impl Abort, sections: &[Section], bytes: &[u8]) {
    are_so_many(rt, sections.len(), 1);
    same_bytes(rt, sections[0].bytes(), bytes);
}

/// Checks that there is one section, of `len` bytes.
pub(crate) fn is_one_section_of(rt: &impl Abort, sections: &[Section], len: usize) {
    are_so_many(rt, sections.len(), 1);
    are_so_many(rt, sections[0].bytes().len(), len);
}

/// A descriptor of `len` bytes, but at most 255.
fn long_descriptor(rt: &(impl Abort + AllocGlobal), len: usize) -> Descriptor {
    let body = [7u8; 255];
    got(rt, Descriptor::new(rt.alloc(), 0x80, &body[..len.min(255)]))
}

/// `count` descriptors of 255 bytes, and one of `last` bytes.
pub(crate) fn long_descriptors(
    rt: &(impl Abort + AllocGlobal),
    count: usize,
    last: usize,
) -> DescriptorList {
    let mut descriptors = Vec::new(rt.alloc());
    for _ in 0..count {
        got(rt, descriptors.push(long_descriptor(rt, 255)));
    }
    got(rt, descriptors.push(long_descriptor(rt, last)));
    DescriptorList::of(descriptors)
}
