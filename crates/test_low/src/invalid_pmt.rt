//! Tests of PMTs with a correct CRC whose descriptor lengths exceed the end of the section: each fault is at the byte
//! with the first bits of that length.
use crate::compared::same;
use crate::tables_of_bytes::run_of;
use std::process::Abort;
use ts_psi::Pmt;
use ts_table_rows::{TableFault, TableRule};

/// ES_info_length is 4, and three bytes are before the CRC.
static LONG_ES_INFO: [u8; 24] = [
    0x02, 0xB0, 0x15, 0x00, 0x01, 0xC1, 0x00, 0x00, 0xE1, 0x01, 0xF0, 0x00, 0x1B, 0xE1, 0x01, 0xF0,
    0x04, 0x52, 0x01, 0x01, 0x4C, 0xBD, 0x59, 0x11,
];

/// program_info_length is 6, and five bytes are before the CRC.
static LONG_PROGRAM_INFO: [u8; 21] = [
    0x02, 0xB0, 0x12, 0x00, 0x01, 0xC1, 0x00, 0x00, 0xE1, 0x01, 0xF0, 0x06, 0x1B, 0xE1, 0x01, 0xF0,
    0x00, 0x15, 0x34, 0x12, 0x0B,
];

/// Checks that a section is not a PMT, for a descriptor loop that exceeds its end, reported at this byte.
fn breaks_at(rt: &(impl Abort + AllocGlobal), bytes: &[u8], offset: usize) {
    let run = run_of(rt, bytes);
    let fault = Pmt::read(rt.alloc(), &run).err();
    let wanted = TableFault::Broken {
        section: 0,
        offset,
        rule: TableRule::Loop,
    };
    same(rt, fault, Some(wanted));
}

#[test]
fn infos_pass_the_end(rt: HostRuntime) {
    breaks_at(&rt, &LONG_ES_INFO, 15);
    breaks_at(&rt, &LONG_PROGRAM_INFO, 10);
}
