//! A delivery system descriptor is read and written back; each call that allocates, once with enough memory.

use crate::compared::{got, same, same_bytes};
use std::process::Abort;
use ts_bits::Descriptor;
use ts_descr_delivery::DeliveryDescr;

/// 346.0000 MHz, RS(204/188), 64-QAM, 6.8750 Msymbol/s, no inner FEC.
static CABLE: [u8; 11] = [
    0x03, 0x46, 0x00, 0x00, 0xFF, 0xF2, 0x03, 0x00, 0x68, 0x75, 0x0F,
];

/// What is read from a cable_delivery_system_descriptor.
fn read(rt: &(impl Abort + AllocGlobal), body: &[u8; 11]) -> Option<DeliveryDescr> {
    let descriptor = got(rt, Descriptor::new(rt.alloc(), 0x44, body));
    got(rt, DeliveryDescr::read(rt.alloc(), &descriptor))
}

#[test]
fn a_cable_is_written_again(rt: HostRuntime) {
    let value = got(&rt, read(&rt, &CABLE).ok_or("no page"));
    let written = got(&rt, value.write(rt.alloc()));
    same_bytes(&rt, written.body(), &CABLE);
}

#[test]
fn ten_is_no_digit(rt: HostRuntime) {
    let mut body = CABLE;
    body[1] = 0x0A;
    same(&rt, read(&rt, &body).is_none(), true);
}
