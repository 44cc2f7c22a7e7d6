//! CRC_32 of sections (ISO/IEC 13818-1, Annex A).

ghost use Rattle.std.specs.Prelude.{◌≡◌};
ghost use Rattle.ts_section.specs.Crc as crc;

use crate::crc_table::crc_entry;

/// The CRC_32 of `bytes` (ISO/IEC 13818-1, Annex A): start value 0xFFFFFFFF, highest bit first, no final
/// inversion. Over a whole long section it is 0. Allocates nothing.
pub fn crc_of(bytes: &[u8]) -> u32
    ensures { result ≡ crc.crc_of bytes.now }
{
    let mut register = u32::MAX;
    for byte in bytes {
        let entry = crc_entry((register >> 24) as u8 ^ *byte);
        register = (register << 8) ^ entry;
    }
    register
}
