//! A piece of a stretch that would be a section but for its CRC.
ghost use Rattle.std.specs.Prelude.{◌≡◌, ◌≤◌, ◌<◌, true, length};
ghost use Rattle.ts_demux.specs.Cut.{size_in_front};
ghost use Rattle.ts_section.specs.SectionFields as fields;
ghost use Rattle.monitor_crcs.specs.WrongCrcs as wrong;

use crate::tables::TOT_ID;
use ts_section::crc_of;

/// The bytes of the head and the CRC of a section of the long form.
const LEAST_LONG: usize = 12;

/// Whether a whole piece of a stretch, as its section_length cuts it off, would be a section but for its CRC (ISO/IEC 13818-1,
/// 2.4.4.11 and annex A; ETSI TR 101 290, 5.2.2, 2.2). It allocates nothing.
#[tactic(auto, unfolding(crate::specs::WrongCrcs::is_spoiled))]
pub fn is_spoiled(piece: &[u8]) -> bool
    requires { length piece.now ≡ size_in_front piece.now }
    ensures { result ≡ wrong.is_spoiled piece.now }
{
    has_crc(piece) && crc_of(piece) != 0
}

// Whether it has a CRC and is right but for that.
fn has_crc(piece: &[u8]) -> bool
    requires { length piece.now ≡ size_in_front piece.now }
    ensures { result ≡ wrong.has_crc piece.now }
{
    if is_long(piece) {
        return LEAST_LONG <= piece.len() && is_in_order(piece);
    }
    table_id(piece) == TOT_ID
}

// Whether it is of the long form.
#[tactic(auto, unfolding(ts_bit_rows::specs::BitRow::field, ts_bit_rows::specs::BitRow::bit_of))]
fn is_long(piece: &[u8]) -> bool
    requires { 2 ≤ length piece.now }
    ensures { result ≡ fields.is_long piece.now }
{
    piece[1] >> 7 == 1
}

/// Its table_id.
#[tactic(auto, unfolding(ts_bit_rows::specs::BitRow::field, ts_bit_rows::specs::BitRow::bit_of))]
pub(crate) fn table_id(piece: &[u8]) -> u8
    requires { 1 ≤ length piece.now }
    ensures { result ≡ fields.table_id_of piece.now }
{
    piece[0]
}

/// The section_length of bytes that begin a piece.
#[tactic(auto, unfolding(ts_bit_rows::specs::BitRow::field, ts_bit_rows::specs::BitRow::bit_of))]
pub(crate) fn section_length(bytes: &[u8]) -> usize
    requires { 3 ≤ length bytes.now }
    ensures length { result ≡ fields.section_length_of bytes.now }
    ensures range { result < 4096 }
{
    usize::from(bytes[1] & 0x0F) << 8 | usize::from(bytes[2])
}

// Whether its section_number is not above the last one.
#[tactic(auto, unfolding(ts_bit_rows::specs::BitRow::field, ts_bit_rows::specs::BitRow::bit_of))]
fn is_in_order(piece: &[u8]) -> bool
    requires { 8 ≤ length piece.now }
    ensures { result ≡ wrong.is_in_order piece.now }
{
    piece[6] <= piece[7]
}
