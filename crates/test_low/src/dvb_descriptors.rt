//! Tests of DVB descriptors: worked rows, and each call that allocates, once with enough memory.

use crate::compared::{got, same, same_bytes};
use std::process::Abort;
use ts_bits::Descriptor;
use ts_descr_dvb::{DvbDescr, text_bytes, text_of};

/// A service_descriptor body: type 1, provider `p`, name `Été`.
static SERVICE: [u8; 10] = [0x01, 0x01, b'p', 0x06, 0x15, 0xC3, 0x89, 0x74, 0xC3, 0xA9];

/// The descriptor that is read from it.
fn service(rt: &(impl Abort + AllocGlobal)) -> DvbDescr {
    let descriptor = got(rt, Descriptor::new(rt.alloc(), 0x48, &SERVICE));
    let read = got(rt, DvbDescr::read(rt.alloc(), &descriptor));
    got(rt, read.ok_or("no page"))
}

#[test]
fn a_service_is_written_again(rt: HostRuntime) {
    let written = got(&rt, service(&rt).write(rt.alloc()));
    same_bytes(&rt, written.body(), &SERVICE);
}

/// Checks the text of bytes, and the bytes of the text.
fn is_text(rt: &(impl Abort + AllocGlobal), bytes: &[u8], wanted: &str) {
    let text = got(rt, got(rt, text_of(rt.alloc(), bytes)).ok_or("no text"));
    same_bytes(rt, text.as_str().as_bytes(), wanted.as_bytes());
    let back = got(rt, text_bytes(rt.alloc(), wanted));
    same_bytes(rt, back.as_slice(), bytes);
}

#[test]
fn texts_and_their_bytes(rt: HostRuntime) {
    is_text(&rt, &SERVICE[4..], "Été");
    let none = got(&rt, text_of(rt.alloc(), &[0x41, 0xE9]));
    same(&rt, none.is_none(), true);
}
