//! A PAT of sixty services, of two versions: its section has 252 bytes and takes two packets.
use crate::bytes::Bytes;

/// One of the two packets of the section, of one version.
#[derive(Clone, Copy)]
pub(crate) struct PatPart {
    version: u8,
    second: bool,
    crc: [u8; 4],
}

const CRC_OF_0: [u8; 4] = [0x1C, 0x39, 0x4F, 0x2A];

const CRC_OF_1: [u8; 4] = [0x88, 0x3F, 0x72, 0xDD];

pub(crate) const FIRST_OF_0: PatPart = PatPart {
    version: 0,
    second: false,
    crc: CRC_OF_0,
};

pub(crate) const SECOND_OF_0: PatPart = PatPart {
    version: 0,
    second: true,
    crc: CRC_OF_0,
};

pub(crate) const FIRST_OF_1: PatPart = PatPart {
    version: 1,
    second: false,
    crc: CRC_OF_1,
};

pub(crate) const SECOND_OF_1: PatPart = PatPart {
    version: 1,
    second: true,
    crc: CRC_OF_1,
};

/// How many of the section's bytes the first packet has, after the pointer.
const IN_FIRST: usize = 183;

/// Where the services end, and the CRC begins.
const SERVICES_END: usize = 248;

impl PatPart {
    /// Appends its packet on PID 0 to others, with this counter.
    pub(crate) fn push(self, bytes: &mut Bytes, counter: u8) {
        if self.second {
            bytes.extend(&[0x47, 0, 0, 0x10 | counter % 16]);
            self.push_section(bytes, IN_FIRST, 184);
        } else {
            bytes.extend(&[0x47, 0x40, 0, 0x10 | counter % 16, 0]);
            self.push_section(bytes, 0, IN_FIRST);
        }
    }

    /// Appends so many of the section's bytes to others, from one on; after the section it appends 0xFF.
    fn push_section(self, bytes: &mut Bytes, from: usize, count: usize) {
        for k in from..from.saturating_add(count) {
            bytes.push(self.section_byte(k));
        }
    }

    /// A byte of the section: its head, then the services 100 to 159, each on the PID 4096 above its number, then the CRC.
    fn section_byte(self, k: usize) -> u8 {
        let head = [0x00, 0xB0, 0xF9, 0x00, 0x01, 0xC1 | self.version << 1, 0, 0];
        if k < head.len() {
            return head[k];
        }
        if k < SERVICES_END {
            return service_byte(k - head.len());
        }
        self.crc.get(k - SERVICES_END).copied().unwrap_or(0xFF)
    }
}

/// A byte of the services.
fn service_byte(k: usize) -> u8 {
    match k % 4 {
        0 => 0,
        2 => 0xF0,
        _ => (100 + k / 4 % 60) as u8,
    }
}
