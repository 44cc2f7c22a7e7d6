//! Tests of the generated stream.
use crate::compared::{got, same_bytes};
use ts_testgen::TestGen;

/// The first five bytes of packet number `i` of the stream of seed 1.
fn front_at(i: u64) -> Option<[u8; 5]> {
    match i {
        0 => Some([0x47, 0x40, 0x00, 0x10, 0x00]),
        4 => Some([0x47, 0x01, 0x00, 0x30, 0x07]),
        9 => Some([0x47, 0x1F, 0xFF, 0x10, 0xFF]),
        50 => Some([0x47, 0x40, 0x00, 0x11, 0x00]),
        _ => None,
    }
}

#[test]
fn some_packets(rt: HostRuntime) {
    let mut generator = got(&rt, TestGen::new(rt.alloc(), 1));
    for i in 0..51u64 {
        let packet = generator.next_packet();
        if let Some(front) = front_at(i) {
            same_bytes(&rt, &packet.bytes()[..5], &front);
        }
    }
}
