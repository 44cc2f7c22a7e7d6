//! An MPEG descriptor is read and written back; each call that allocates, once with enough memory.

use crate::compared::{got, same, same_bytes};
use std::process::Abort;
use ts_bits::Descriptor;
use ts_descr_mpeg::MpegDescr;

/// The languages `eng` and `fra`.
static LANGUAGES: [u8; 8] = [b'e', b'n', b'g', 0x00, b'f', b'r', b'a', 0x03];

/// The descriptor that is read from them.
fn languages(rt: &(impl Abort + AllocGlobal)) -> MpegDescr {
    let descriptor = got(rt, Descriptor::new(rt.alloc(), 0x0A, &LANGUAGES));
    let read = got(rt, MpegDescr::read(rt.alloc(), &descriptor));
    got(rt, read.ok_or("no page"))
}

#[test]
fn languages_are_written_again(rt: HostRuntime) {
    let written = got(&rt, languages(&rt).write(rt.alloc()));
    same(&rt, written.tag(), 0x0A);
    same_bytes(&rt, written.body(), &LANGUAGES);
}
