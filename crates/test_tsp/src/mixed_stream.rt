//! The stream of the chains: sixty packets on four PIDs, some with unit starts, some with adaptation fields, some with
//! counters that jump or stay.
use crate::bytes::Bytes;

const PIDS: [u16; 4] = [256, 257, 258, 512];

/// The bits of adaptation_field_control for an adaptation field, and for a payload; both may be set.
const HAS_FIELD: u8 = 0x20;

const HAS_PAYLOAD: u8 = 0x10;

/// The adaptation field of a packet: its length and its flags.
#[derive(Clone, Copy)]
struct Field {
    length: u8,
    flags: u8,
}

/// The fourth byte of a header without its counter, and the adaptation field.
#[derive(Clone, Copy)]
struct Kind {
    control: u8,
    field: Option<Field>,
}

/// Appends all packets of the stream to the bytes.
pub(crate) fn push_mixed(bytes: &mut Bytes) {
    let mut counters = [0u8; 4];
    for n in 0..60usize {
        let kind = kind_of(n);
        let which = (n + n * n / 7) % 4;
        let counter = next_counter(counters[which], n, kind);
        counters[which] = counter;
        push_header(bytes, n, PIDS[which], kind.control | counter);
        push_body(bytes, (n % 256) as u8, kind.field);
    }
}

/// Whether a packet has an adaptation field alone, one before a payload, or a payload alone. The flag
/// 0x80 is the discontinuity indicator.
fn kind_of(n: usize) -> Kind {
    match n % 12 {
        3 => Kind {
            control: HAS_FIELD,
            field: Some(Field {
                length: 183,
                flags: 0,
            }),
        },
        7 => with_field(7, 0),
        10 => with_field(1, 0x80),
        11 => with_field(0, 0),
        _ => Kind {
            control: HAS_PAYLOAD,
            field: None,
        },
    }
}

/// An adaptation field before a payload.
fn with_field(length: u8, flags: u8) -> Kind {
    Kind {
        control: HAS_FIELD | HAS_PAYLOAD,
        field: Some(Field { length, flags }),
    }
}

/// The counter after another one on its PID: it jumps at each ninth packet, and stays at each fourteenth and where
/// there is no payload.
fn next_counter(before: u8, n: usize, kind: Kind) -> u8 {
    let stays = kind.control == HAS_FIELD || n % 14 == 6;
    let step = if n % 9 == 5 {
        3
    } else if stays {
        0
    } else {
        1
    };
    before.wrapping_add(step) % 16
}

/// The four bytes of the header; each fifth packet has its unit start.
fn push_header(bytes: &mut Bytes, n: usize, pid: u16, last: u8) {
    let [high, low] = pid.to_be_bytes();
    let unit_start = if n % 5 == 0 { 0x40 } else { 0 };
    bytes.extend(&[0x47, unit_start | high, low, last]);
}

/// The 184 bytes after the header: the adaptation field's length and flags, where there is one, and bytes that
/// count up from the least one.
fn push_body(bytes: &mut Bytes, least: u8, field: Option<Field>) {
    for k in 0..184u8 {
        let byte = match field {
            Some(field) if k == 0 => field.length,
            Some(field) if k == 1 && field.length > 0 => field.flags,
            _ => least.wrapping_add(k),
        };
        bytes.push(byte);
    }
}
