//! A text of a PMT without components, whose four private descriptors just fit, and one that is a byte longer.
use crate::compared::{got, same, same_bytes};
use crate::faults::compiled;
use std::alloc::AllocError;
use std::process::Abort;
use tabcomp_core::{CompileFault, compile};
use ts_table_rows::TableRefusal;

/// Appends a descriptor of this size to the text.
fn push_descriptor(text: &mut Vec<u8>, count: usize) -> Result<(), AllocError> {
    text.extend_from_slice(br##"{"#name":"generic_descriptor","tag":128,"data":""##)?;
    for _ in 0..count {
        text.extend_from_slice(b"07")?;
    }
    text.extend_from_slice(br##""}"##)
}

/// Appends the text of a PMT of three descriptors of 255 bytes, and a fourth of this size.
fn push_pmt(text: &mut Vec<u8>, last: usize) -> Result<(), AllocError> {
    text.extend_from_slice(
        br##"{"#name":"tsduck","#nodes":[{"#name":"PMT","service_id":1,"#nodes":["##,
    )?;
    for _ in 0..3 {
        push_descriptor(text, 255)?;
        text.push(b',')?;
    }
    push_descriptor(text, last)?;
    text.extend_from_slice(b"]}]}")
}

/// The text of that PMT.
fn pmt_text(rt: &(impl Abort + AllocGlobal), last: usize) -> Vec<u8> {
    let mut text = Vec::new(rt.alloc());
    got(rt, push_pmt(&mut text, last));
    text
}

/// Its section_length is 13 + 771 + 237 = 1021, the greatest of a PMT.
#[test]
fn the_longest_pmt_is_compiled(rt: HostRuntime) {
    let bytes = compiled(&rt, &pmt_text(&rt, 235));
    same(&rt, bytes.len(), 1024);
    same_bytes(
        &rt,
        got(&rt, bytes.get(..3).ok_or("bytes")),
        b"\x02\xB3\xFD",
    );
}

/// How the text of the first table is refused.
fn refusal(rt: &(impl Abort + AllocGlobal), text: &[u8]) -> TableRefusal {
    match compile(rt.alloc(), text) {
        Err(CompileFault::TooLarge { table: 0, refusal }) => refusal,
        _ => rt.panic("no such fault"),
    }
}

#[test]
fn a_longer_pmt_is_too_large(rt: HostRuntime) {
    let told = refusal(&rt, &pmt_text(&rt, 236));
    same(&rt, told, TableRefusal::TooLarge { bytes: 1022 });
}
