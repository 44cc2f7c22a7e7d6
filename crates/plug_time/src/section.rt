//! The sections of TDT and TOT.

ghost use Rattle.std.specs.Prelude.{◌≡◌, ◌+◌, ◌<◌, ◌≤◌, ◌↔◌, true, length, drop, IsSome, IfSome};
ghost use Rattle.ts_section.specs.SectionFields.{front_of};
ghost use Rattle.ts_section.specs.SectionFields as fields;
ghost use Rattle.ts_demux.specs.Cut.{is_whole_in_front, size_in_front};
ghost use Rattle.plug_time.specs.MovedTimes as moved;

use crate::numbers::{TDT_ID, TOT_ID};
use crate::utc_time::TIME_SIZE;
use ts_packet::PACKET_SIZE;
use ts_section::crc_of;

/// The bytes up to and with section_length.
const HEAD: usize = 3;

/// The byte instead of a table_id where stuffing begins.
const STUFFING: u8 = 0xFF;

/// The size of a CRC.
pub(crate) const CRC_SIZE: usize = 4;

/// Where the time of a TDT and of a TOT begins.
pub(crate) const TIME_PLACE: usize = HEAD;

/// The least section_length of a TOT: a time, the length of its descriptors, a CRC.
const LEAST_TOT: usize = TIME_SIZE + 2 + CRC_SIZE;

/// The size of the section that begins at a place of a packet, where it is whole there.
#[tactic(auto, unfolding(ts_demux::specs::Cut::is_whole_in_front))]
pub(crate) fn whole_at(bytes: &[u8; PACKET_SIZE], at: usize) -> Option<usize>
    requires { at ≤ 1000 }
    ensures whole { IsSome result ↔ (is_whole_in_front (drop at bytes.now) ≡ true) }
    ensures size { IfSome result (λ size. size ≡ size_in_front (drop at bytes.now)) }
    ensures within { IfSome result (λ size. (3 ≤ size) × (at + size ≤ 188)) }
{
    if PACKET_SIZE < at + HEAD {
        return None;
    }
    let rest = &bytes[at..];
    if table_id(rest) == STUFFING {
        return None;
    }
    let size = HEAD + section_length(rest);
    if size <= rest.len() { Some(size) } else { None }
}

/// The whole section at a place of a packet, which has this size.
#[tactic(auto, using(crate::proofs::MovedLemmas::front_of_place))]
pub(crate) fn section_at(bytes: &[u8; PACKET_SIZE], at: usize, size: usize) -> &[u8]
    requires size { size ≡ size_in_front (drop at bytes.now) }
    requires within { at + size ≤ 188 }
    ensures bytes { result.now ≡ front_of (drop at bytes.now) }
    ensures whole { length result.now ≡ size_in_front result.now }
    ensures size { length result.now ≡ size }
{
    &bytes[at..at + size]
}

/// Whether a whole section is a TDT.
pub(crate) fn is_tdt(section: &[u8]) -> bool
    requires { length section.now ≡ size_in_front section.now }
    ensures value { result ≡ moved.is_tdt section.now }
    ensures size { result ≡ true → length section.now ≡ 8 }
{
    table_id(section) == TDT_ID && (!is_long(section) && section_length(section) == TIME_SIZE)
}

/// Whether a whole section is a TOT with a right CRC.
pub(crate) fn is_tot(section: &[u8]) -> bool
    requires { length section.now ≡ size_in_front section.now }
    ensures value { result ≡ moved.is_tot section.now }
    ensures size { result ≡ true → 14 ≤ length section.now }
{
    table_id(section) == TOT_ID
        && (!is_long(section) && (LEAST_TOT <= section_length(section) && has_right_crc(section)))
}

/// The time of a TDT or a TOT.
pub(crate) fn time_of(section: &[u8]) -> [u8; TIME_SIZE]
    requires { 8 ≤ length section.now }
    ensures { result ≡ moved.time_of section.now }
{
    let mut time = [0; TIME_SIZE];
    time.copy_from_slice(&section[TIME_PLACE..TIME_PLACE + TIME_SIZE]);
    time
}

// Whether the last four bytes are the CRC of those before them.
fn has_right_crc(section: &[u8]) -> bool
    requires { 4 ≤ length section.now }
    ensures { result ≡ moved.has_right_crc section.now }
{
    let end = section.len() - CRC_SIZE;
    let crc = crc_of(&section[..end]).to_be_bytes();
    section[end..] == crc[..]
}

// The table_id of bytes that begin a section.
#[tactic(auto, unfolding(ts_bit_rows::specs::BitRow::field, ts_bit_rows::specs::BitRow::bit_of))]
fn table_id(bytes: &[u8]) -> u8
    requires { 1 ≤ length bytes.now }
    ensures { result ≡ fields.table_id_of bytes.now }
{
    bytes[0]
}

// Whether bytes begin a section of the long form.
#[tactic(auto, unfolding(ts_bit_rows::specs::BitRow::field, ts_bit_rows::specs::BitRow::bit_of))]
fn is_long(bytes: &[u8]) -> bool
    requires { 2 ≤ length bytes.now }
    ensures { result ≡ fields.is_long bytes.now }
{
    bytes[1] >> 7 == 1
}

// The section_length of bytes that begin a section.
#[tactic(auto, unfolding(ts_bit_rows::specs::BitRow::field, ts_bit_rows::specs::BitRow::bit_of))]
fn section_length(bytes: &[u8]) -> usize
    requires { 3 ≤ length bytes.now }
    ensures value { result ≡ fields.section_length_of bytes.now }
    ensures range { result < 4096 }
{
    usize::from(bytes[1] & 0x0F) << 8 | usize::from(bytes[2])
}
