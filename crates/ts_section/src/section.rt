//! One valid section.

ghost use Rattle.std.specs.Prelude.{◌≡◌, ◌≢◌, ◌<◌, ◌≤◌, ◌+◌, true, false, length, take, drop, IfOk, IfSome, IfNone, IsOkUnless};
ghost use Rattle.ts_section.specs.SectionFields.{table_id_of, section_length_of, head_of, body_of, body_place, front_of};
ghost use Rattle.ts_section.specs.SectionFields as fields;
ghost use Rattle.ts_section.specs.ValidSection.{IsSection};
ghost use Rattle.ts_section.specs.FirstBroken.{first_broken, first_broken_long};
ghost use Rattle.ts_section.specs.WrittenSection.{first_three, next_five, long_section, short_section, IsLongSectionOf, IsShortSectionOf};

use crate::crc::crc_of;
use crate::fault::{SectionFault, SectionRule};
use crate::long_head::LongHead;
use std::alloc::{AllocError, Global};
use std::marker::Model;

/// The greatest section_length.
pub const MOST_SECTION_LENGTH: u16 = 4093;

/// Where the body of a section of the short form begins: after section_length.
pub const SHORT_BODY_PLACE: usize = 3;

/// Where the body of a section of the long form begins: after last_section_number.
pub const LONG_BODY_PLACE: usize = 8;

/// The size of the CRC in bytes.
const CRC_SIZE: usize = 4;

/// One valid section of the short or the long form (ISO/IEC 13818-1, 2.4.4.11), at most 4096 bytes.
#[derive(Drop)]
pub struct Section {
    bytes: Vec<u8>,
}

// Clauses see a section as the list of its bytes.
impl Model for Section {
    ghost use Rattle.std.specs.Prelude.{List, ℕ};
    ghost use Rattle.ts_section.specs.ValidSection.{IsSection};

    ghost Value = { List ℕ };

    ghost view = { λ s. s.bytes.items };

    ghost invariant = { λ s. IsSection s.bytes.items };
}

impl Section {
    /// The section that `from` is, or the first broken rule where it is not one whole valid section.
    pub fn parse(alloc: Global, from: &[u8]) -> Result<Section, SectionFault>
        ensures refused { IfSome (first_broken from.now) (λ fault. result ≡ Err fault) }
        ensures accepted { IfNone (first_broken from.now) (IsOkUnless result SectionFault.NoMemory) }
        ensures same { IfOk result (λ s. s ≡ from.now) }
        ensures valid { IfOk result (λ s. IsSection s) }
        ensures every_section { IsSection from.now → IsOkUnless result SectionFault.NoMemory }
    {
        if let Some(fault) = first_fault(from) {
            return Err(fault);
        }
        let Ok(bytes) = Vec::from_slice(alloc, from) else {
            return Err(SectionFault::NoMemory);
        };
        Ok(Section { bytes })
    }

    /// The section at the beginning of longer bytes: what `parse` returns for the first
    /// 3 + section_length bytes, or for all bytes where there are fewer.
    pub fn parse_front(alloc: Global, from: &[u8]) -> Result<Section, SectionFault>
        ensures refused { IfSome (first_broken (front_of from.now)) (λ fault. result ≡ Err fault) }
        ensures accepted { IfNone (first_broken (front_of from.now)) (IsOkUnless result SectionFault.NoMemory) }
        ensures same { IfOk result (λ s. s ≡ front_of from.now) }
        ensures valid { IfOk result (λ s. IsSection s) }
        ensures nothing_trails { first_broken (front_of from.now) ≢ Some (SectionFault.Invalid SectionRule.Trailing) }
    {
        Section::parse(alloc, front(from))
    }

    /// The section of the long form with this head and body, with reserved bits as ones and its CRC.
    pub fn long(alloc: Global, head: LongHead, body: &[u8]) -> Result<Section, AllocError>
        requires valid_id { head.table_id < 255 }
        requires version { head.version < 32 }
        requires numbers { head.number ≤ head.last }
        requires room { length body.now ≤ 4084 }
        ensures made { IfOk result (λ s. s ≡ long_section head body.now) }
        ensures written { IfOk result (λ s. IsLongSectionOf head body.now s) }
    {
        let length = LONG_BODY_PLACE - SHORT_BODY_PLACE + body.len() + CRC_SIZE;
        let mut bytes = Vec::with_capacity(alloc, SHORT_BODY_PLACE + length)?;
        bytes.extend_from_slice(&first_bytes(head.table_id, true, head.private, length as u16))?;
        bytes.extend_from_slice(&long_bytes(head))?;
        bytes.extend_from_slice(body)?;
        let crc = crc_of(&bytes);
        bytes.extend_from_slice(&crc.to_be_bytes())?;
        Ok(Section { bytes })
    }

    /// The section of the short form with this body, with reserved bits as ones.
    pub fn short(
        alloc: Global,
        table_id: u8,
        private: bool,
        body: &[u8],
    ) -> Result<Section, AllocError>
        requires valid_id { table_id < 255 }
        requires room { length body.now ≤ MOST_SECTION_LENGTH }
        ensures made { IfOk result (λ s. s ≡ short_section table_id «private» body.now) }
        ensures written { IfOk result (λ s. IsShortSectionOf table_id «private» body.now s) }
    {
        let mut bytes = Vec::with_capacity(alloc, SHORT_BODY_PLACE + body.len())?;
        bytes.extend_from_slice(&first_bytes(table_id, false, private, body.len() as u16))?;
        bytes.extend_from_slice(body)?;
        Ok(Section { bytes })
    }

    /// All bytes of the section.
    pub fn bytes(&self) -> &[u8]
        ensures same { result.now ≡ self.now }
        ensures valid { IsSection self.now }
    {
        &self.bytes
    }

    /// The table_id, 0 to 254.
    pub fn table_id(&self) -> u8
        ensures id { result ≡ table_id_of self.now }
        ensures valid { IsSection self.now }
    {
        let b = self.bytes.as_slice();
        b[0]
    }

    /// Whether the section has the long form.
    pub fn is_long(&self) -> bool
        ensures long { result ≡ fields.is_long self.now }
        ensures valid { IsSection self.now }
    {
        is_long(&self.bytes)
    }

    /// The bit after section_syntax_indicator.
    pub fn is_private(&self) -> bool
        ensures own { result ≡ fields.private_of self.now }
        ensures valid { IsSection self.now }
    {
        is_private(&self.bytes)
    }

    /// The head of the long form; none exactly for the short form.
    pub fn head(&self) -> Option<LongHead>
        ensures head { result ≡ head_of self.now }
        ensures version { IfSome result (λ head. head.version < 32) }
        ensures numbers { IfSome result (λ head. head.number ≤ head.last) }
        ensures valid { IsSection self.now }
    {
        let b = self.bytes.as_slice();
        if is_long(b) { Some(long_head(b)) } else { None }
    }

    /// The bytes between the head and the CRC; in the short form, those after section_length.
    pub fn body(&self) -> &[u8]
        ensures body { result.now ≡ body_of self.now }
        ensures place { result.now ≡ take (length result.now) (drop (body_place self.now) self.now) }
        ensures long_size { fields.is_long self.now ≡ true → length result.now + 9 ≡ section_length_of self.now }
        ensures short_size { fields.is_long self.now ≡ false → length result.now ≡ section_length_of self.now }
        ensures valid { IsSection self.now }
    {
        let b = self.bytes.as_slice();
        if is_long(b) {
            &b[LONG_BODY_PLACE..b.len() - CRC_SIZE]
        } else {
            &b[SHORT_BODY_PLACE..]
        }
    }

    /// A copy of the section.
    pub fn copy(&self) -> Result<Section, AllocError>
        ensures { IfOk result (λ s. s ≡ self.now) }
    {
        let bytes = Vec::from_slice(*self.bytes.allocator(), &self.bytes)?;
        Ok(Section { bytes })
    }
}

/// Whether the bytes begin a section of the long form.
fn is_long(bytes: &[u8]) -> bool
    requires { 2 ≤ length bytes.now }
    ensures { result ≡ fields.is_long bytes.now }
{
    bytes[1] >> 7 == 1
}

/// The bit after section_syntax_indicator.
fn is_private(bytes: &[u8]) -> bool
    requires { 2 ≤ length bytes.now }
    ensures { result ≡ fields.private_of bytes.now }
{
    (bytes[1] >> 6) & 1 == 1
}

/// The head of a section of the long form.
fn long_head(b: &[u8]) -> LongHead
    requires { LONG_BODY_PLACE ≤ length b.now }
    ensures { result ≡ fields.head_fields b.now }
{
    LongHead {
        table_id: b[0],
        private: (b[1] >> 6) & 1 == 1,
        extension: u16::from_be_bytes([b[3], b[4]]),
        version: (b[5] >> 1) & 0x1F,
        current: b[5] & 1 == 1,
        number: b[6],
        last: b[7],
    }
}

/// The section at the beginning of the bytes, or all of them where there are fewer.
fn front(bytes: &[u8]) -> &[u8]
    ensures { result.now ≡ front_of bytes.now }
{
    if bytes.len() < SHORT_BODY_PLACE {
        return bytes;
    }
    let size = SHORT_BODY_PLACE + usize::from(section_length(bytes));
    if bytes.len() < size {
        bytes
    } else {
        &bytes[..size]
    }
}

/// The section_length of bytes that begin a section.
fn section_length(bytes: &[u8]) -> u16
    requires { 3 ≤ length bytes.now }
    ensures { result ≡ fields.section_length_of bytes.now }
{
    u16::from_be_bytes([bytes[1] & 0x0F, bytes[2]])
}

/// The first broken rule, if one is broken.
fn first_fault(bytes: &[u8]) -> Option<SectionFault>
    ensures { result ≡ first_broken bytes.now }
{
    let found = bytes.len();
    if found < SHORT_BODY_PLACE {
        return Some(SectionFault::Short {
            wanted: SHORT_BODY_PLACE,
            found,
        });
    }
    if bytes[0] == 0xFF {
        return Some(SectionFault::Invalid {
            rule: SectionRule::Stuffing,
        });
    }
    let length = section_length(bytes);
    if length > MOST_SECTION_LENGTH {
        return Some(SectionFault::TooLong { length });
    }
    let wanted = SHORT_BODY_PLACE + usize::from(length);
    if found < wanted {
        return Some(SectionFault::Short { wanted, found });
    }
    if wanted < found {
        return Some(SectionFault::Invalid {
            rule: SectionRule::Trailing,
        });
    }
    if is_long(bytes) {
        first_fault_long(bytes)
    } else {
        None
    }
}

/// The first broken rule of the long form's own rules.
fn first_fault_long(bytes: &[u8]) -> Option<SectionFault>
    requires { length bytes.now ≡ 3 + fields.section_length_of bytes.now }
    ensures { result ≡ first_broken_long bytes.now }
{
    if bytes.len() < LONG_BODY_PLACE + CRC_SIZE {
        return Some(SectionFault::Invalid {
            rule: SectionRule::ShortLong,
        });
    }
    if bytes[7] < bytes[6] {
        return Some(SectionFault::Invalid {
            rule: SectionRule::Numbers,
        });
    }
    let (before, last) = bytes.split_at(bytes.len() - CRC_SIZE);
    let wanted = crc_of(before);
    let found = u32::from_be_bytes([last[0], last[1], last[2], last[3]]);
    if wanted == found {
        return None;
    }
    Some(SectionFault::BadCrc { wanted, found })
}

/// The first three bytes of a section; `length` is its section_length.
fn first_bytes(table_id: u8, long: bool, private: bool, length: u16) -> [u8; 3]
    requires { length < 4096 }
    ensures { result ≡ first_three table_id long «private» length }
{
    let [high, low] = length.to_be_bytes();
    [
        table_id,
        (u8::from(long) << 7) | (u8::from(private) << 6) | 0x30 | high,
        low,
    ]
}

/// The five bytes of a long head after section_length.
fn long_bytes(head: LongHead) -> [u8; 5]
    requires { head.version < 32 }
    ensures { result ≡ next_five head }
{
    let [high, low] = head.extension.to_be_bytes();
    [
        high,
        low,
        0xC0 | (head.version << 1) | u8::from(head.current),
        head.number,
        head.last,
    ]
}
