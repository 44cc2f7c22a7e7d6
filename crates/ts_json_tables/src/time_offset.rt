//! What a TOT holds, from its bytes and to them.

ghost use Rattle.std.specs.Prelude.{◌≡◌, ◌≤◌, ◌<◌, ◌++◌, ◌%◌, ℕ, List, map, length, bytes_eq, true, false, IfNone, IfOk, IfSome, OnOk};
ghost use Rattle.ts_bits.specs.DescriptorLoop.{descriptors_of};
ghost use Rattle.ts_fields.specs.Bits.{bits_of};
ghost use Rattle.ts_fields.specs.Fitting.{are_bytes, fits, shaped};
ghost use Rattle.ts_fields.specs.Layout.{Held, held, rows_of};
ghost use Rattle.ts_fields.specs.Reading.{Gives};
ghost use Rattle.ts_section.specs.WrittenSection.{first_three};
ghost use Rattle.ts_table_rows.specs.BodySpelling.{bytes_of};
ghost use Rattle.ts_json_tables.specs.TimeOffsets;
ghost use Rattle.ts_json_tables.specs.TimeOffsets.{offset_bits, offset_crc, offset_held, offset_payload, tot_id, tot_of, tot_rows};

use std::alloc::{AllocError, Global};
use ts_bits::{DescriptorList, LoopFault, read_loop, write_loop};
use ts_fields::{
    BitReader, BitWriter, Field, FieldValue, Kind, NotRead, fit_rows_are_shaped, length_of_bits,
    length_of_read_rows, length_of_spelled_rows, read_rows, write_rows,
};
use ts_pages::rows;
use ts_section::crc_of;
use ts_table_rows::written_rows_are_whole;

/// The table_id of a TOT.
pub const TOT_ID: u8 = 0x73;

/// The greatest number of bytes before the CRC.
const MOST_FRONT: usize = 4089;

/// What a TOT holds (ETSI EN 300 468, 5.2.6).
#[derive(Drop)]
pub struct TimeOffset {
    /// UTC_time, and the four reserved bits after it.
    pub values: Vec<FieldValue>,
    /// Its descriptors.
    pub descriptors: DescriptorList,
}

/// The fields of a TOT.
pub fn tot_fields() -> &'static [Field]
    ensures { rows_of result.now ≡ tot_rows }
{
    rows! {
        "UTC_time" Start;
        "reserved" Reserved(4);
    }
}

/// Descriptors that fill their bytes.
fn whole_loop(alloc: Global, row: &[u8]) -> Result<DescriptorList, NotRead>
    ensures { Gives (λ l. l) result (TimeOffsets.whole_loop (descriptors_of row.now)) }
{
    match read_loop(alloc, row) {
        Ok(list) => Ok(list),
        Err(LoopFault::Cut { .. }) => Err(NotRead::Outside),
        Err(LoopFault::NoMemory) => Err(NotRead::NoMemory),
    }
}

/// The fields and the descriptors at the beginning of some bytes, whatever follows them.
#[tactic(auto, unfolding(crate::specs::TimeOffsets::read_offsets))]
fn read_offsets(alloc: Global, payload: &[u8]) -> Result<TimeOffset, NotRead>
    requires { length payload.now ≤ 4096 }
    ensures { Gives offset_held result (TimeOffsets.read_offsets (bits_of payload.now)) }
{
    let (values, rest) = read_rows(alloc, tot_fields(), BitReader::of(payload))?;
    let (size, rest) = rest.number(12).ok_or(NotRead::Outside)?;
    let (row, _rest) = rest.bytes(alloc, size as usize)?;
    let descriptors = whole_loop(alloc, &row)?;
    Ok(TimeOffset {
        values,
        descriptors,
    })
}

/// The same, where the values fit their fields.
fn read_fit(alloc: Global, payload: &[u8]) -> Result<TimeOffset, NotRead>
    requires { length payload.now ≤ 4096 }
    ensures read { Gives offset_held result (TimeOffsets.read_offsets (bits_of payload.now)) }
    ensures fit { IfOk result (λ t. fits tot_rows (offset_held t).values ≡ true) }
{
    // A law, which runs nothing.
    length_of_read_rows();
    let offset = read_offsets(alloc, payload)?;
    Ok(offset)
}

/// Appends the bits before the CRC, where the descriptors are given as bytes.
#[tactic(auto, unfolding(crate::specs::TimeOffsets::offset_bits, ts_table_rows::specs::BodySpelling::spell_counted))]
fn put_front(out: &mut BitWriter, values: &[FieldValue], row: &[u8]) -> Result<(), AllocError>
    ensures { OnOk result (out.new ≡ out.old ++ offset_bits (map held values.now) row.now) }
{
    write_rows(out, tot_fields(), values)?;
    out.put(12, row.len() as u64)?;
    out.put_bytes(row)
}

/// The bits before the CRC are whole bytes. A law; it runs nothing.
fn fronts_are_whole()
    ensures { (values : List Held) (row : List ℕ) → shaped tot_rows values ≡ true → length (offset_bits values row) % 8 ≡ 0 }
{
    length_of_spelled_rows();
    length_of_bits();
}

/// Each byte is below 256. A law; it runs nothing.
pub fn bytes_are_small(row: &[u8])
    ensures { are_bytes row.now ≡ true }
{}

/// The bytes before the CRC, where the descriptors are given as bytes.
fn front_bytes(alloc: Global, values: &[FieldValue], row: &[u8]) -> Result<Vec<u8>, AllocError>
    requires { shaped tot_rows (map held values.now) ≡ true }
    ensures { IfOk result (λ front. front.items ≡ bytes_of (offset_bits (map held values.now) row.now)) }
{
    // Laws, which run nothing.
    fronts_are_whole();
    written_rows_are_whole();
    let mut out = BitWriter::new(alloc);
    put_front(&mut out, values, row)?;
    let front = out.into_bytes();
    bytes_are_small(&front);
    Ok(front)
}

/// The first three bytes of a TOT, after which there are so many bytes.
fn head_bytes(size: u16) -> [u8; 3]
    requires { size < 4096 }
    ensures { result ≡ first_three tot_id false true size }
{
    [TOT_ID, 0x70 + (size / 256) as u8, (size % 256) as u8]
}

/// The CRC of a TOT with these bytes before it.
#[tactic(auto, unfolding(crate::specs::TimeOffsets::offset_crc))]
fn crc_bytes(alloc: Global, front: &[u8]) -> Result<[u8; 4], AllocError>
    requires { length front.now ≤ 4089 }
    ensures { IfOk result (λ crc. crc ≡ offset_crc front.now) }
{
    let head = head_bytes(front.len() as u16 + 4);
    let mut covered = Vec::from_slice(alloc, &head)?;
    covered.extend_from_slice(front)?;
    let crc = crc_of(&covered);
    Ok(crc.to_be_bytes())
}

/// The bytes of a TOT before its CRC.
fn offset_front(alloc: Global, offset: &TimeOffset) -> Result<Vec<u8>, AllocError>
    requires { shaped tot_rows (offset_held offset.now).values ≡ true }
    ensures { IfOk result (λ front. front.items ≡ TimeOffsets.offset_front (offset_held offset.now)) }
{
    let row = write_loop(alloc, offset.descriptors.as_slice())?;
    front_bytes(alloc, &offset.values, &row)
}

/// The bytes of a TOT before its CRC and the CRC; `None` where they would be more than 4093.
fn with_crc(alloc: Global, front: Vec<u8>) -> Result<Option<Vec<u8>>, AllocError>
    ensures made { IfOk result (λ row. IfSome row (λ r. r.items ≡ front.items ++ offset_crc front.items)) }
    ensures small { IfOk result (λ row. IfSome row (λ r. length r.items ≤ 4093)) }
    ensures large { IfOk result (λ row. IfNone row (4093 < length (front.items ++ offset_crc front.items))) }
{
    if front.len() > MOST_FRONT {
        return Ok(None);
    }
    let crc = crc_bytes(alloc, &front)?;
    let mut row = front;
    row.extend_from_slice(&crc)?;
    Ok(Some(row))
}

/// The bytes of a TOT after section_length; `None` where they would be more than 4093.
pub fn tot_bytes(alloc: Global, offset: &TimeOffset) -> Result<Option<Vec<u8>>, AllocError>
    requires { shaped tot_rows (offset_held offset.now).values ≡ true }
    ensures made { IfOk result (λ row. IfSome row (λ r. r.items ≡ offset_payload (offset_held offset.now))) }
    ensures small { IfOk result (λ row. IfSome row (λ r. length r.items ≤ 4093)) }
    ensures large { IfOk result (λ row. IfNone row (4093 < length (offset_payload (offset_held offset.now)))) }
{
    let front = offset_front(alloc, offset)?;
    let row = with_crc(alloc, front)?;
    Ok(row)
}

/// Whether these are the bytes of this TOT.
fn has_bytes(alloc: Global, offset: &TimeOffset, payload: &[u8]) -> Result<bool, AllocError>
    requires shaped { shaped tot_rows (offset_held offset.now).values ≡ true }
    requires room { length payload.now ≤ 4093 }
    ensures { IfOk result (λ same. same ≡ bytes_eq (offset_payload (offset_held offset.now)) payload.now) }
{
    match tot_bytes(alloc, offset)? {
        Some(row) => Ok(row.as_slice() == payload),
        None => Ok(false),
    }
}

/// What a section with these bytes after section_length holds as a TOT; `Outside` exactly where it is no TOT with a right
/// CRC, unless memory runs out.
pub fn read_tot(alloc: Global, payload: &[u8]) -> Result<TimeOffset, NotRead>
    requires { length payload.now ≤ 4093 }
    ensures read { Gives offset_held result (tot_of payload.now) }
    ensures fit { IfOk result (λ t. fits tot_rows (offset_held t).values ≡ true) }
{
    // A law, which runs nothing.
    fit_rows_are_shaped();
    let offset = read_fit(alloc, payload)?;
    if !has_bytes(alloc, &offset, payload)? {
        return Err(NotRead::Outside);
    }
    Ok(offset)
}
