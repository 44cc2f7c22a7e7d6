//! The packets of the four tables.
//!
//! Their bytes are constants here, and are given by their fields in the definition (`GeneratedTables.antt`), so that
//! the generator depends on sections and packets alone. They take memory while they are packed and none later.
ghost use Rattle.std.specs.Prelude.{◌≡◌, ◌<◌, ◌≤◌, length, true, IfOk};
ghost use Rattle.ts_section.specs.WrittenSection.{long_section};
ghost use Rattle.ts_testgen.specs.Counters.{AreTables};
ghost use Rattle.ts_testgen.specs.Generated.{table_packet};
ghost use Rattle.ts_testgen.specs.GeneratedTables.{only_head};

use std::alloc::{AllocError, Global};
use ts_packet::{NULL_PID, Packet};
use ts_packetize::packets;
use ts_section::{LongHead, Section};

/// Service 1 with the PMT on PID 4096, service 2 with the PMT on PID 4097.
const PAT_BODY: [u8; 8] = [0, 1, 0xF0, 0x00, 0, 2, 0xF0, 0x01];
/// PCR_PID 256; stream types 2 on PID 256 and 3 on PID 257; no descriptors.
const FIRST_PMT_BODY: [u8; 14] = [
    0xE1, 0x00, 0xF0, 0, 2, 0xE1, 0x00, 0xF0, 0, 3, 0xE1, 0x01, 0xF0, 0,
];
/// PCR_PID 256; stream types 2 on PID 258 and 3 on PID 259; no descriptors.
const SECOND_PMT_BODY: [u8; 14] = [
    0xE1, 0x00, 0xF0, 0, 2, 0xE1, 0x02, 0xF0, 0, 3, 0xE1, 0x03, 0xF0, 0,
];
/// Original network 1; services 1 and 2, running, each with a service descriptor: type 1, provider and name.
const SDT_BODY: [u8; 37] = [
    0, 1, 0xFF, //
    0, 1, 0xFC, 0x80, 12, 0x48, 10, 1, 4, b't', b'e', b's', b't', 3, b'o', b'n', b'e', //
    0, 2, 0xFC, 0x80, 12, 0x48, 10, 1, 4, b't', b'e', b's', b't', 3, b't', b'w', b'o',
];

/// The packets of the tables, with continuity counter 0.
#[derive(Clone, Copy)]
pub(crate) struct Tables {
    /// The PAT.
    pub pat: Packet,
    /// The PMT of service 1.
    pub first_pmt: Packet,
    /// The PMT of service 2.
    pub second_pmt: Packet,
    /// The SDT of the actual transport stream.
    pub sdt: Packet,
}

impl Tables {
    /// The tables of the generated stream.
    pub fn new(alloc: Global) -> Result<Tables, AllocError>
        ensures { IfOk result (λ tables. AreTables tables.pat tables.first_pmt tables.second_pmt tables.sdt) }
    {
        Ok(Tables {
            pat: table_packet(alloc, 0, 0x00, false, 1, &PAT_BODY)?,
            first_pmt: table_packet(alloc, 4096, 0x02, false, 1, &FIRST_PMT_BODY)?,
            second_pmt: table_packet(alloc, 4097, 0x02, false, 2, &SECOND_PMT_BODY)?,
            sdt: table_packet(alloc, 17, 0x42, true, 1, &SDT_BODY)?,
        })
    }
}

/// The packet of this PID that carries the one section of a table.
fn table_packet(
    alloc: Global,
    pid: u16,
    table_id: u8,
    private: bool,
    extension: u16,
    body: &[u8],
) -> Result<Packet, AllocError>
    requires pid { pid < NULL_PID }
    requires valid_id { table_id < 255 }
    requires room { length body.now ≤ 170 }
    ensures { IfOk result (λ packet. packet ≡ table_packet pid (long_section (only_head table_id «private» extension) body.now)) }
{
    let head = LongHead {
        table_id,
        private,
        extension,
        version: 0,
        current: true,
        number: 0,
        last: 0,
    };
    let section = Section::long(alloc, head, body)?;
    let mut sections = Vec::with_capacity(alloc, 1)?;
    sections.push(section)?;
    let list = packets(alloc, pid, &sections)?;
    Ok(list.as_slice().first().copied().unwrap_or(Packet::null()))
}
