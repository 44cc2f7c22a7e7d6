//! A reader of bits, which reads fields one after another.

ghost use Rattle.std.specs.Prelude.{◌≡◌, ◌<◌, ◌≤◌, ◌++◌, map, length, option_map, option_to_list, IsTrue, OnOk};
ghost use Rattle.ts_fields.specs.Bits.{bits_of};
ghost use Rattle.ts_fields.specs.Reading.{Gives, read_number, read_bytes, read_decimal, read_rest, read_field, read_rows};
ghost use Rattle.ts_fields.specs.Layout.{held, rows_of};
ghost use Rattle.ts_fields.specs.SoundRows.{is_sound, are_sound};
ghost use Rattle.ts_fields.specs.declared.reader.NotRead.TheVariants.{NoMemory};
ghost use Rattle.ts_fields.specs.declared.field.Kind.TheVariants.{Ones, Start, Duration, Language};

use crate::field::{Field, FieldValue, Kind};
use crate::texts::are_printable;
use crate::times::{is_start, is_time};
use std::alloc::{AllocError, AllocFailed, Global};
use std::marker::Model;
use ts_bits::bits;

/// Why nothing was read.
#[derive(Debug, Clone, Copy, PartialEq, Eq)]
pub enum NotRead {
    /// The bits are not of the kind that is read.
    Outside,
    /// Out of memory for the values.
    NoMemory,
}

impl From<AllocError> for NotRead {
    ghost from_gives = { λ _ stop. stop ≡ NoMemory };

    fn from(_error: AllocError) -> NotRead {
        NotRead::NoMemory
    }
}

impl<T: Drop> From<AllocFailed<T>> for NotRead {
    ghost from_gives = { λ _ stop. stop ≡ NoMemory };

    fn from(_error: AllocFailed<T>) -> NotRead {
        NotRead::NoMemory
    }
}

/// The bits that are still to be read.
#[derive(Drop)]
pub struct BitReader<'a> {
    row: &'a [u8],
    at: usize,
}

impl<'a> Model for BitReader<'a> {
    ghost use Rattle.std.specs.Prelude.{◌≤◌, ◌*◌, List, Bool, drop, length};
    ghost use Rattle.ts_fields.specs.Bits.{bits_of};

    ghost Value = { List Bool };

    ghost view = { λ r. drop r.at (bits_of r.row.now) };

    ghost invariant = { λ r. (r.at ≤ 8 * length r.row.now) × (length r.row.now ≤ 4096) };
}

impl<'a> BitReader<'a> {
    /// All bits of at most 4096 bytes.
    pub fn of(row: &'a [u8]) -> BitReader<'a>
        requires { length row.now ≤ 4096 }
        ensures { result ≡ bits_of row.now }
    {
        BitReader { row, at: 0 }
    }

    /// The number of bits left, at most 32768.
    #[tactic(auto, using(crate::proofs::BitLemmas::left))]
    pub fn len(&self) -> usize
        ensures left { result ≡ length self.now }
        ensures few { result ≤ 32768 }
    {
        8 * self.row.len() - self.at
    }

    /// Reads an unsigned integer of `count` bits, and returns it with the reader after it; `None` where fewer bits
    /// are left.
    #[tactic(auto, using(crate::proofs::ReadLemmas::read_there, crate::proofs::ReadLemmas::read_none), unfolding(crate::specs::Reading::read_number))]
    pub fn number(self, count: u32) -> Option<(u64, BitReader<'a>)>
        requires { count ≤ 64 }
        ensures { option_map (λ x. (x.0, x.1)) result ≡ read_number count self.entry }
    {
        let number = bits(self.row, self.at, count).ok()?;
        let rest = BitReader {
            row: self.row,
            at: self.at + count as usize,
        };
        Some((number, rest))
    }

    /// Reads `count` bytes. `Outside` exactly where fewer are left, unless memory runs out.
    pub fn bytes(self, alloc: Global, count: usize) -> Result<(Vec<u8>, BitReader<'a>), NotRead>
        ensures { Gives (λ x. (x.0.items, x.1)) result (read_bytes count self.entry) }
    {
        let mut bytes = Vec::new(alloc);
        let mut rest = self;
        for _ in 0..count {
            let Some((byte, after)) = rest.number(8) else {
                return Err(NotRead::Outside);
            };
            bytes.push(byte as u8)?;
            rest = after;
        }
        Ok((bytes, rest))
    }

    /// Reads a number of `digits` decimal digits of four bits each; `None` where fewer bits are left or one is above
    /// 9.
    pub fn decimal(self, digits: u32) -> Option<(u64, BitReader<'a>)>
        requires { digits ≤ 8 }
        ensures { option_map (λ x. (x.0, x.1)) result ≡ read_decimal digits self.entry }
    {
        let mut number = 0;
        let mut rest = self;
        for _ in 0..digits {
            let (digit, after) = rest.number(4)?;
            if digit > 9 {
                return None;
            }
            number = 10 * number + digit;
            rest = after;
        }
        Some((number, rest))
    }

    /// Reads whole bytes up to the end. `Outside` exactly where the bits are not whole bytes, unless memory runs out.
    #[tactic(auto, unfolding(crate::specs::Reading::read_rest))]
    pub fn to_end(self, alloc: Global) -> Result<(Vec<u8>, BitReader<'a>), NotRead>
        ensures { Gives (λ x. (x.0.items, x.1)) result (read_rest self.entry) }
    {
        let count = self.len() / 8;
        let (bytes, rest) = self.bytes(alloc, count)?;
        if rest.len() != 0 {
            return Err(NotRead::Outside);
        }
        Ok((bytes, rest))
    }
}

/// Reads one field: its value, if it is not reserved, and the bits after it. `Outside` exactly where the bits are not
/// of its kind, unless memory runs out.
#[tactic(auto, unfolding(crate::specs::Reading::read_field))]
pub fn read_field<'a>(
    alloc: Global,
    kind: Kind,
    from: BitReader<'a>,
) -> Result<(Option<FieldValue>, BitReader<'a>), NotRead>
    requires { IsTrue (is_sound kind) }
    ensures { Gives (λ x. (option_map held x.0, x.1)) result (read_field kind from.entry) }
{
    match kind {
        Kind::Number(count) | Kind::Reserved(count) | Kind::Zeros(count) => {
            let (number, rest) = from.number(count).ok_or(NotRead::Outside)?;
            Ok((Some(FieldValue::Number(number)), rest))
        }
        Kind::Flag => {
            let (number, rest) = from.number(1).ok_or(NotRead::Outside)?;
            Ok((Some(FieldValue::Number(number)), rest))
        }
        Kind::Decimal(digits) => {
            let (number, rest) = from.decimal(digits).ok_or(NotRead::Outside)?;
            Ok((Some(FieldValue::Number(number)), rest))
        }
        Kind::Ones(count) => read_ones(count, from),
        Kind::Free(count) => {
            let (_, rest) = from.number(count).ok_or(NotRead::Outside)?;
            Ok((None, rest))
        }
        Kind::Start => read_start(from),
        Kind::Duration => read_duration(from),
        Kind::Language => read_language(alloc, from),
        Kind::CountedText | Kind::CountedHex => {
            let (count, rest) = from.number(8).ok_or(NotRead::Outside)?;
            let (bytes, rest) = rest.bytes(alloc, count as usize)?;
            Ok((Some(FieldValue::Bytes(bytes)), rest))
        }
        Kind::Text | Kind::Hex => {
            let (bytes, rest) = from.to_end(alloc)?;
            Ok((Some(FieldValue::Bytes(bytes)), rest))
        }
    }
}

/// Reads reserved bits that must be ones.
#[tactic(auto, unfolding(crate::specs::Reading::read_field))]
fn read_ones<'a>(
    count: u32,
    from: BitReader<'a>,
) -> Result<(Option<FieldValue>, BitReader<'a>), NotRead>
    requires { count < 64 }
    ensures { Gives (λ x. (option_map held x.0, x.1)) result (read_field (Ones count) from.entry) }
{
    let (number, rest) = from.number(count).ok_or(NotRead::Outside)?;
    if number != (1 << count) - 1 {
        return Err(NotRead::Outside);
    }
    Ok((None, rest))
}

/// Reads the start of an event.
#[tactic(auto, unfolding(crate::specs::Reading::read_field))]
fn read_start<'a>(from: BitReader<'a>) -> Result<(Option<FieldValue>, BitReader<'a>), NotRead>
    ensures { Gives (λ x. (option_map held x.0, x.1)) result (read_field Start from.entry) }
{
    let (number, rest) = from.number(40).ok_or(NotRead::Outside)?;
    if !is_start(number) {
        return Err(NotRead::Outside);
    }
    Ok((Some(FieldValue::Number(number)), rest))
}

/// Reads the duration of an event.
#[tactic(auto, unfolding(crate::specs::Reading::read_field))]
fn read_duration<'a>(from: BitReader<'a>) -> Result<(Option<FieldValue>, BitReader<'a>), NotRead>
    ensures { Gives (λ x. (option_map held x.0, x.1)) result (read_field Duration from.entry) }
{
    let (number, rest) = from.number(24).ok_or(NotRead::Outside)?;
    if !is_time(99, number) {
        return Err(NotRead::Outside);
    }
    Ok((Some(FieldValue::Number(number)), rest))
}

/// Reads a code of a language or a country.
#[tactic(auto, unfolding(crate::specs::Reading::read_field))]
fn read_language<'a>(
    alloc: Global,
    from: BitReader<'a>,
) -> Result<(Option<FieldValue>, BitReader<'a>), NotRead>
    ensures { Gives (λ x. (option_map held x.0, x.1)) result (read_field Language from.entry) }
{
    let (bytes, rest) = from.bytes(alloc, 3)?;
    if !are_printable(&bytes) {
        return Err(NotRead::Outside);
    }
    Ok((Some(FieldValue::Bytes(bytes)), rest))
}

/// Reads fields in their order: their values, and the bits after them.
pub fn read_rows<'a>(
    alloc: Global,
    rows: &[Field],
    from: BitReader<'a>,
) -> Result<(Vec<FieldValue>, BitReader<'a>), NotRead>
    requires { IsTrue (are_sound (rows_of rows.now)) }
    ensures { Gives (λ x. (map held x.0.items, x.1)) result (read_rows (rows_of rows.now) from.entry) }
{
    let mut values = Vec::new(alloc);
    let mut rest = from;
    for field in rows {
        let (value, after) = read_field(alloc, field.kind, rest)?;
        add(&mut values, value)?;
        rest = after;
    }
    Ok((values, rest))
}

/// Appends the value of a field, if it is not reserved.
fn add(
    values: &mut Vec<FieldValue>,
    value: Option<FieldValue>,
) -> Result<(), AllocFailed<FieldValue>>
    ensures { OnOk result (values.new.items ≡ values.old.items ++ option_to_list value) }
{
    if let Some(value) = value {
        values.push(value)?;
    }
    Ok(())
}
