//! Texts compiled, and bytes cut and decompiled; each call that allocates is made once with enough memory.

use crate::compared::{got, same, same_bytes, same_text};
use crate::faults::{compiled, is_no_json, is_told};
use std::alloc::Global;
use std::process::Abort;
use tabcomp_core::{DecompileFault, decompile, sections_of};
use ts_jtree::JsonKind;
use ts_section::SectionFault;

/// The text of a PAT of one service.
const PAT: &[u8] =
    br##"{"#name":"tsduck","#nodes":[{"#name":"PAT","transport_stream_id":1,"#nodes":[{"#name":"service","service_id":1,"program_map_PID":"0x1000"}]}]}"##;

/// The number of sections in bytes.
fn section_count(alloc: Global, bytes: &[u8]) -> Result<usize, DecompileFault> {
    Ok(sections_of(alloc, bytes)?.len())
}

/// A PAT of one service with its CRC.
static PAT_BYTES: [u8; 16] = [
    0x00, 0xB0, 0x0D, 0x00, 0x01, 0xC1, 0x00, 0x00, 0x00, 0x01, 0xF0, 0x00, 0x2A, 0xB1, 0x04, 0xB2,
];

/// The bytes. The content of a `static` is written into each function that names it.
fn pat_bytes() -> &'static [u8; 16] {
    &PAT_BYTES
}

/// The fault of a section that is cut.
fn short(wanted: usize, found: usize) -> DecompileFault {
    DecompileFault::Section {
        offset: 0,
        fault: SectionFault::Short { wanted, found },
    }
}

#[test]
fn a_text_is_compiled(rt: HostRuntime) {
    let bytes = compiled(&rt, PAT);
    same_bytes(&rt, &bytes, pat_bytes());
    same(&rt, section_count(rt.alloc(), &bytes), Ok(1));
    let cut = section_count(rt.alloc(), &pat_bytes()[..5]);
    same(&rt, cut, Err(short(16, 5)));
}

/// Texts whose service has an unknown key, and the number 0; and what is said of them.
static FAULTS: [(&[u8], &str, JsonKind); 2] = [
    (
        br##"{"#name":"tsduck","#nodes":[{"#name":"PAT","transport_stream_id":1,"#nodes":[{"#name":"service","service_id":1,"program_map_PID":"0x1000","extra":1}]}]}"##,
        "extra",
        JsonKind::UnknownKey,
    ),
    (
        br##"{"#name":"tsduck","#nodes":[{"#name":"PAT","transport_stream_id":1,"#nodes":[{"#name":"service","service_id":0,"program_map_PID":1}]}]}"##,
        "service_id",
        JsonKind::OutOfRange,
    ),
];

/// The texts.
fn faults() -> &'static [(&'static [u8], &'static str, JsonKind)] {
    &FAULTS
}

#[test]
fn the_first_fault_is_told(rt: HostRuntime) {
    is_no_json(&rt, b"{");
    for (text, key, kind) in faults() {
        is_told(&rt, text, &[0, 0], key, *kind);
    }
}

/// Bytes and their texts: a PAT, a section of the short form with table_id 0x72, nothing, the first two turned, a TOT with a right
/// CRC and with a wrong one, and an RST.
static TEXTS: [(&[u8], &str); 7] = [
    (
        b"\x00\xB0\x0D\x00\x01\xC1\x00\x00\x00\x01\xF0\x00\x2A\xB1\x04\xB2",
        r##"{"#name":"tsduck","#nodes":[{"#name":"PAT","#nodes":[{"#name":"service","program_map_PID":4096,"service_id":1}],"current":true,"transport_stream_id":1,"version":0}]}"##,
    ),
    (
        b"\x72\x70\x01\xAA",
        r##"{"#name":"tsduck","#nodes":[{"#name":"generic_short_table","payload":"aa","private":true,"table_id":114}]}"##,
    ),
    (b"", r##"{"#name":"tsduck","#nodes":[]}"##),
    (
        b"\x73\x70\x1A\xD6\x5B\x23\x31\x30\xF0\x0F\x58\x0D\x46\x52\x41\x02\x02\x00\xEC\xC2\x01\x00\x00\x01\x00\xBD\xD0\xD9\x44",
        r##"{"#name":"tsduck","#nodes":[{"#name":"TOT","#nodes":[{"#name":"local_time_offset_descriptor","#nodes":[{"#name":"region","country_code":"FRA","country_region_id":0,"local_time_offset":200,"local_time_offset_polarity":0,"next_time_offset":100,"time_of_change":"2024-10-27 01:00:00"}]}],"UTC_time":"2009-02-13 23:31:30"}]}"##,
    ),
    (
        b"\x73\x70\x1A\xD6\x5B\x23\x31\x30\xF0\x0F\x58\x0D\x46\x52\x41\x02\x02\x00\xEC\xC2\x01\x00\x00\x01\x00\xBD\xD0\xD9\x45",
        r##"{"#name":"tsduck","#nodes":[{"#name":"generic_short_table","payload":"d65b233130f00f580d465241020200ecc20100000100bdd0d945","private":true,"table_id":115}]}"##,
    ),
    (
        b"\x71\x70\x09\x27\x10\x9C\x40\x4E\x20\x75\x30\xF9",
        r##"{"#name":"tsduck","#nodes":[{"#name":"RST","#nodes":[{"#name":"event","event_id":30000,"original_network_id":40000,"running_status":1,"service_id":20000,"transport_stream_id":10000}]}]}"##,
    ),
    (
        b"\x72\x70\x01\xAA\x00\xB0\x0D\x00\x01\xC1\x00\x00\x00\x01\xF0\x00\x2A\xB1\x04\xB2",
        r##"{"#name":"tsduck","#nodes":[{"#name":"generic_short_table","payload":"aa","private":true,"table_id":114},{"#name":"PAT","#nodes":[{"#name":"service","program_map_PID":4096,"service_id":1}],"current":true,"transport_stream_id":1,"version":0}]}"##,
    ),
];

/// The bytes and their texts.
fn texts() -> &'static [(&'static [u8], &'static str); 7] {
    &TEXTS
}

/// Checks the text that bytes are decompiled to.
fn is_text(rt: &(impl Abort + AllocGlobal), bytes: &[u8], text: &str) {
    let found = got(rt, decompile(rt.alloc(), bytes));
    same_text(rt, found.as_str(), text);
}

#[test]
fn bytes_are_decompiled(rt: HostRuntime) {
    for (bytes, text) in texts() {
        is_text(&rt, bytes, text);
        same_bytes(&rt, &compiled(&rt, text.as_bytes()), bytes);
    }
}

/// The PAT's body in a table given by its bytes.
const PAT_AS_BYTES: &[u8] =
    br##"{"#name":"tsduck","#nodes":[{"#name":"generic_long_table","table_id":0,"table_id_extension":1,"private":false,"#nodes":[{"#name":"section","payload":"0001f000"}]}]}"##;

#[test]
fn what_is_compiled_is_decompiled(rt: HostRuntime) {
    is_text(&rt, &compiled(&rt, PAT_AS_BYTES), texts()[0].1);
}

/// Bytes that are refused: a PAT with a wrong CRC, the first of two sections of one table alone, and both turned.
static REFUSED: [(&[u8], DecompileFault); 3] = [
    (
        b"\x00\xB0\x0D\x00\x01\xC1\x00\x00\x00\x01\xF0\x00\x2A\xB1\x04\xB3",
        DecompileFault::Section {
            offset: 0,
            fault: SectionFault::BadCrc {
                wanted: 0x2AB1_04B2,
                found: 0x2AB1_04B3,
            },
        },
    ),
    (
        b"\x80\xB0\x09\x00\x01\xC1\x00\x01\x92\xE3\x2A\x93",
        DecompileFault::Sequence { offset: 12 },
    ),
    (
        b"\x80\xB0\x09\x00\x01\xC1\x01\x01\x40\xFA\xEB\x4F\x80\xB0\x09\x00\x01\xC1\x00\x01\x92\xE3\x2A\x93",
        DecompileFault::Sequence { offset: 0 },
    ),
];

/// The bytes that are refused.
fn refused() -> &'static [(&'static [u8], DecompileFault)] {
    &REFUSED
}

/// Checks why bytes are not decompiled.
fn is_refused(rt: &(impl Abort + AllocGlobal), bytes: &[u8], wanted: DecompileFault) {
    let told = decompile(rt.alloc(), bytes).err();
    same(rt, told, Some(wanted));
}

#[test]
fn runs_are_whole(rt: HostRuntime) {
    for (bytes, fault) in refused() {
        is_refused(&rt, bytes, *fault);
    }
}

/// Three bytes are needed to know the length of a section.
#[test]
fn each_first_part_is_short(rt: HostRuntime) {
    for found in 1..16 {
        let wanted = if found < 3 { 3 } else { 16 };
        is_refused(&rt, &pat_bytes()[..found], short(wanted, found));
    }
}
