//! Tests of sections: worked rows, sections that other tools wrote, and each call that allocates, once with enough
//! memory.

use crate::compared::{got, same, same_bytes};
use crate::tables_of_bytes::{is_one_section, run_of};
use std::alloc::{AllocError, Global};
use std::process::Abort;
use ts_section::{LongHead, Section, SectionFault, SectionRule, TableRun, crc_of};

/// A PAT as ffmpeg's muxer writes it: transport_stream_id 1105, the network PID 16, service 769 on PID 272.
const PAT: [u8; 20] = [
    0x00, 0xB0, 0x11, 0x04, 0x51, 0xC1, 0x00, 0x00, 0x00, 0x00, 0x00, 0x10, 0x03, 0x01, 0xE1, 0x10,
    0x86, 0x09, 0x3F, 0xAA,
];

/// A CAT without descriptors as biTStream writes it.
const CAT: [u8; 12] = [
    0x01, 0xB0, 0x09, 0xFF, 0xFF, 0xC1, 0x00, 0x00, 0xD6, 0x6D, 0xA2, 0x42,
];

/// A TDT as biTStream writes it.
const TDT: [u8; 8] = [0x70, 0x70, 0x05, 0xD6, 0x5B, 0x23, 0x31, 0x30];

/// Why bytes are not a section.
fn fault(alloc: Global, bytes: &[u8]) -> Option<SectionFault> {
    Section::parse(alloc, bytes).err()
}

/// Bytes and their CRC: the check value of the algorithm, whole sections, and nothing.
static CRCS: [(&[u8], u32); 4] = [
    (b"123456789", 0x0376_E6E7),
    (&PAT, 0),
    (&CAT, 0),
    (&[], 0xFFFF_FFFF),
];

/// The rows. The content of a `static` is written into each function that names it.
fn crcs() -> &'static [(&'static [u8], u32)] {
    &CRCS
}

#[test]
fn published_crcs(rt: HostRuntime) {
    for (bytes, wanted) in crcs() {
        same(&rt, crc_of(bytes), *wanted);
    }
}

/// Bytes, and why they are not a section.
type FaultRow = (&'static [u8], Option<SectionFault>);

// A `static` calls no function.
macro_rules! invalid {
    ($rule:ident) => {
        Some(SectionFault::Invalid {
            rule: SectionRule::$rule,
        })
    };
}

/// The first broken rules, and a CAT with a wrong CRC.
static FAULTS: [FaultRow; 10] = [
    (
        &[0x00, 0xBF, 0xFE],
        Some(SectionFault::TooLong { length: 4094 }),
    ),
    (&[0xFF, 0x30, 0x00], invalid!(Stuffing)),
    (&[0xFF, 0x3F, 0xFF], invalid!(Stuffing)),
    (
        &[0x72, 0x30, 0x02, 0xAA],
        Some(SectionFault::Short {
            wanted: 5,
            found: 4,
        }),
    ),
    (
        &[0x72, 0x30],
        Some(SectionFault::Short {
            wanted: 3,
            found: 2,
        }),
    ),
    (&[0x72, 0x30, 0x00, 0xAA], invalid!(Trailing)),
    (
        &[0x00, 0xB0, 0x05, 0x00, 0x00, 0xC1, 0x01, 0x00],
        invalid!(ShortLong),
    ),
    (
        &[0x00, 0xB0, 0x09, 0x00, 0x00, 0xC1, 0x01, 0x00, 0, 0, 0, 0],
        invalid!(Numbers),
    ),
    (&TDT, None),
    (
        &[
            0x01, 0xB0, 0x09, 0xFF, 0xFF, 0xC1, 0x00, 0x00, 0xD6, 0x6D, 0xA2, 0x43,
        ],
        Some(SectionFault::BadCrc {
            wanted: 0xD66D_A242,
            found: 0xD66D_A243,
        }),
    ),
];

/// The rows.
fn faults() -> &'static [FaultRow] {
    &FAULTS
}

#[test]
fn first_broken_rules(rt: HostRuntime) {
    for (bytes, wanted) in faults() {
        let found = fault(rt.alloc(), bytes);
        same(&rt, (*bytes, found), (*bytes, *wanted));
    }
}

/// The header fields of that PAT.
const PAT_HEAD: LongHead = LongHead {
    table_id: 0,
    private: false,
    extension: 1105,
    version: 0,
    current: true,
    number: 0,
    last: 0,
};

/// Checks that a section is that PAT.
fn is_the_pat(rt: &impl Abort, section: &Section) {
    same_bytes(rt, section.bytes(), &PAT);
    same(rt, (section.table_id(), section.is_long()), (0, true));
    same(rt, section.head(), Some(PAT_HEAD));
    same_bytes(rt, section.body(), &PAT[8..16]);
}

/// Checks the bytes of a section that is made again.
fn is_made(rt: &impl Abort, made: Result<Section, AllocError>, bytes: &[u8]) {
    same_bytes(rt, got(rt, made).bytes(), bytes);
}

/// A copy of that PAT.
fn copied(rt: &(impl Abort + AllocGlobal)) -> Section {
    let section = got(rt, Section::parse(rt.alloc(), &PAT));
    got(rt, section.copy())
}

#[test]
fn a_pat(rt: HostRuntime) {
    is_the_pat(&rt, &copied(&rt));
    let written = Section::long(rt.alloc(), PAT_HEAD, &PAT[8..16]);
    is_made(&rt, written, &PAT);
}

/// The TDT, read from bytes in which the CAT follows it.
fn in_front(rt: &(impl Abort + AllocGlobal)) -> Section {
    let mut bytes = got(rt, Vec::from_slice(rt.alloc(), &TDT));
    got(rt, bytes.extend_from_slice(&CAT));
    got(rt, Section::parse_front(rt.alloc(), &bytes))
}

#[test]
fn a_section_in_front(rt: HostRuntime) {
    let cut = Section::parse_front(rt.alloc(), &TDT[..5]).err();
    let short = SectionFault::Short {
        wanted: 8,
        found: 5,
    };
    same(&rt, cut, Some(short));
    same_bytes(&rt, in_front(&rt).bytes(), &TDT);
}

/// Checks the fields of the TDT.
fn is_the_tdt(rt: &impl Abort, section: &Section) {
    same(rt, (section.is_long(), section.head()), (false, None));
    same_bytes(rt, section.body(), &TDT[3..]);
}

#[test]
fn a_tdt(rt: HostRuntime) {
    is_the_tdt(&rt, &got(&rt, Section::parse(rt.alloc(), &TDT)));
    let written = Section::short(rt.alloc(), 0x70, true, &TDT[3..]);
    is_made(&rt, written, &TDT);
}

/// The section with this section_number, at most 2, of an EIT or an SDT whose last_section_number is 2.
fn numbered(alloc: Global, eit: bool, number: u8) -> Result<Section, AllocError> {
    let head = LongHead {
        table_id: if eit { 0x6F } else { 0x42 },
        private: true,
        extension: 1,
        version: 3,
        current: true,
        number: number.min(2),
        last: 2,
    };
    Section::long(alloc, head, &[])
}

/// The index at which sections with these section_numbers stop being one table; `None` if they are one.
fn place(rt: &(impl Abort + AllocGlobal), eit: bool, numbers: &[u8]) -> Option<usize> {
    let mut sections = Vec::new(rt.alloc());
    for number in numbers {
        let section = got(rt, numbered(rt.alloc(), eit, *number));
        got(rt, sections.push(section));
    }
    match TableRun::of(sections) {
        Ok(_) => None,
        Err(fault) => Some(fault.place),
    }
}

/// Whether the sections are of an EIT, their section_numbers, and the place.
type RunRow = (bool, &'static [u8], Option<usize>);

/// Runs of sections whose last_section_number is 2.
static RUNS: [RunRow; 9] = [
    (false, &[0, 1, 2], None),
    (false, &[0, 2], Some(1)),
    (false, &[0, 1], Some(2)),
    (false, &[1, 2], Some(0)),
    (false, &[0, 1, 2, 2], Some(3)),
    (false, &[0, 0], Some(1)),
    (false, &[], Some(0)),
    (true, &[1], None),
    (true, &[0, 1], Some(1)),
];

/// The rows.
fn run_rows() -> &'static [RunRow] {
    &RUNS
}

#[test]
fn runs(rt: HostRuntime) {
    for (eit, numbers, wanted) in run_rows() {
        let found = place(&rt, *eit, numbers);
        same(&rt, (*numbers, found), (*numbers, *wanted));
    }
}

/// A copy of the sections of the PAT.
fn copied_run(rt: &(impl Abort + AllocGlobal)) -> TableRun {
    let run = run_of(rt, &PAT);
    got(rt, run.copy())
}

#[test]
fn a_run_keeps_its_sections(rt: HostRuntime) {
    is_one_section(&rt, copied_run(&rt).sections(), &PAT);
}
