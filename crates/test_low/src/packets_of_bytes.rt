//! Tests of packets: header fields, adaptation field, payload and labels.
use crate::compared::{same, same_bytes};
use std::process::Abort;
use ts_packet::{Cell, Labels, NoSync, PACKET_SIZE, Packet};

const NULL_HEAD: [u8; 12] = [
    0x47, 0x1F, 0xFF, 0x10, 0xFF, 0xFF, 0xFF, 0xFF, 0xFF, 0xFF, 0xFF, 0xFF,
];

/// The packet that begins with these bytes and continues with 0xFF.
fn packet(rt: &impl Abort, head: [u8; 12]) -> Packet {
    let mut row = [0xFF; PACKET_SIZE];
    row[..12].copy_from_slice(&head);
    Packet::of(&row).expect(rt, "a sync byte")
}

#[derive(Drop)]
struct HeaderRow {
    head: [u8; 12],
    pid: u16,
    flags: [bool; 3],
    controls: [u8; 2],
    counter: u8,
}

/// Headers from streams of other makers: a null packet, a PAT packet, and packets with transport_error_indicator,
/// transport_priority and scrambling.
static HEADERS: [HeaderRow; 3] = [
    HeaderRow {
        head: NULL_HEAD,
        pid: 8191,
        flags: [false, false, false],
        controls: [0, 1],
        counter: 0,
    },
    HeaderRow {
        head: [0x47, 0x40, 0, 0x10, 0, 0, 0xB0, 0x0D, 0, 1, 0xC1, 0],
        pid: 0,
        flags: [false, true, false],
        controls: [0, 1],
        counter: 0,
    },
    HeaderRow {
        head: [
            0x47, 0xE1, 1, 0xF6, 1, 0xE0, 0x24, 0x2B, 0x32, 0x39, 0x40, 0x47,
        ],
        pid: 257,
        flags: [true, true, true],
        controls: [3, 3],
        counter: 6,
    },
];

/// The headers, in a function: the content of a `static` is written into each function that names it.
fn headers() -> &'static [HeaderRow] {
    &HEADERS
}

/// Checks the fields of a packet that has this header.
fn has_header(rt: &impl Abort, read: &Packet, row: &HeaderRow) {
    same(rt, read.pid(), row.pid);
    let flags = [read.error_indicator(), read.unit_start(), read.priority()];
    same(rt, flags, row.flags);
    let controls = [read.scrambling(), read.adaptation_control()];
    same(rt, controls, row.controls);
    same(rt, read.counter(), row.counter);
}

#[test]
fn header_fields(rt: HostRuntime) {
    for row in headers() {
        has_header(&rt, &packet(&rt, row.head), row);
    }
}

#[derive(Drop)]
struct FieldRow {
    head: [u8; 12],
    length: Option<u8>,
    start: Option<u8>,
    payload: usize,
    discontinuity: bool,
    pcr: Option<u64>,
}

/// Adaptation fields: the first PCR of a multiplexer's stream, the greatest PCR, one with its extension, an empty
/// field, valid and invalid lengths, and a discontinuity.
static FIELDS: [FieldRow; 7] = [
    FieldRow {
        head: [
            0x47, 0x41, 0x20, 0x30, 7, 0xD0, 0, 0, 0x7B, 0xC3, 0x7E, 0x48,
        ],
        length: Some(7),
        start: Some(12),
        payload: 176,
        discontinuity: true,
        pcr: Some(19_009_872),
    },
    FieldRow {
        head: [
            0x47, 1, 0, 0x33, 7, 0x10, 0xFF, 0xFF, 0xFF, 0xFF, 0xFF, 0x2B,
        ],
        length: Some(7),
        start: Some(12),
        payload: 176,
        discontinuity: false,
        pcr: Some(2_576_980_377_599),
    },
    FieldRow {
        head: [0x47, 1, 0, 0x31, 0, 1, 0x0A, 0x11, 0x18, 0x1F, 0x26, 0x2D],
        length: Some(0),
        start: Some(5),
        payload: 183,
        discontinuity: false,
        pcr: None,
    },
    FieldRow {
        head: [0x47, 1, 0, 0x27, 183, 0x10, 0, 2, 0x0F, 0x58, 0x7E, 4],
        length: Some(183),
        start: None,
        payload: 0,
        discontinuity: false,
        pcr: Some(81_000_004),
    },
    FieldRow {
        head: [
            0x47, 3, 0x31, 0x31, 184, 0, 0x33, 0x3A, 0x41, 0x48, 0x4F, 0x56,
        ],
        length: None,
        start: None,
        payload: 0,
        discontinuity: false,
        pcr: None,
    },
    FieldRow {
        head: [0x47, 1, 0, 0x38, 182, 0, 0xFF, 0xFF, 0xFF, 0xFF, 0xFF, 0xFF],
        length: Some(182),
        start: Some(187),
        payload: 1,
        discontinuity: false,
        pcr: None,
    },
    FieldRow {
        head: [
            0x47, 3, 0, 0x10, 0x32, 0x39, 0x40, 0x47, 0x4E, 0x55, 0x5C, 0x63,
        ],
        length: None,
        start: Some(4),
        payload: 184,
        discontinuity: false,
        pcr: None,
    },
];

/// The adaptation fields.
fn fields() -> &'static [FieldRow] {
    &FIELDS
}

/// Checks the adaptation field and the payload of a packet.
fn has_fields(rt: &impl Abort, read: &Packet, row: &FieldRow) {
    same(rt, read.adaptation_length(), row.length);
    same(rt, read.payload_start(), row.start);
    let has_payload = row.payload > 0 || row.length.is_none();
    same(rt, read.has_payload(), has_payload);
    same(rt, read.payload().len(), row.payload);
    same(rt, read.discontinuity(), row.discontinuity);
    same(rt, read.pcr(), row.pcr);
}

#[test]
fn adaptation_fields(rt: HostRuntime) {
    for row in fields() {
        has_fields(&rt, &packet(&rt, row.head), row);
    }
}

/// A null packet after one call of each setter but that of the PCR.
fn written() -> Packet {
    let mut written = Packet::null();
    written.set_error_indicator(true);
    written.set_priority(true);
    written.set_unit_start(true);
    written.set_pid(257);
    written.set_scrambling(3);
    written.set_adaptation_control(3);
    written.set_counter(6);
    written.put_payload(4, &[1, 0xE0]);
    written
}

/// Sets the PCR of a packet, and checks its bytes.
fn is_clocked(rt: &impl Abort, packet: &mut Packet) {
    same(rt, packet.set_pcr(19_009_872), true);
    let wanted = [0, 0, 0x7B, 0xC3, 0x7E, 0x48];
    same_bytes(rt, &packet.bytes()[6..12], &wanted);
}

/// Each setter once, on the null packet and on one with a PCR.
#[test]
fn fields_written(rt: HostRuntime) {
    let wanted = [0x47, 0xE1, 1, 0xF6, 1, 0xE0, 0xFF];
    same_bytes(&rt, &written().bytes()[..7], &wanted);
    let head = [0x47, 1, 0, 0x33, 7, 0x10, 0, 0, 0, 0, 0, 0];
    is_clocked(&rt, &mut packet(&rt, head));
    same(&rt, Packet::null().set_pcr(0), false);
}

#[test]
fn sync_byte(rt: HostRuntime) {
    let refused = Packet::of(&[0xFF; PACKET_SIZE]);
    same(&rt, refused, Err(NoSync { found: 0xFF }));
    same(&rt, Packet::null(), packet(&rt, NULL_HEAD));
}

/// Which labels a set has.
fn has_labels(labels: Labels) -> [bool; 4] {
    [labels.has(0), labels.has(3), labels.has(4), labels.has(31)]
}

/// Checks what the set of the labels 3 and 31 has in common with others.
fn intersect(rt: &impl Abort, labels: Labels) {
    let last = Labels::none().with(31);
    same(rt, labels.shares(last), true);
    same(rt, labels.shares(Labels::none().with(4)), false);
    same(rt, Labels::none().with(3).union(last), labels);
}

/// Labels are found again, two sets intersect in one label, and a cell with labels takes 196 bytes.
#[test]
fn labels_of_a_cell(rt: HostRuntime) {
    let labels = Labels::none().with(3).with(31);
    same(&rt, has_labels(labels), [false, true, false, true]);
    intersect(&rt, labels);
    same(&rt, size_of::<Cell>(), 196);
}
