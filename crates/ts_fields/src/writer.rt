//! A writer of bits, which writes fields one after another.

ghost use Rattle.std.specs.Prelude.{◌≡◌, ◌≤◌, [], ◌∷◌, ◌++◌, ◌+◌, ◌*◌, ◌^◌, ◌<◌, ◌%◌, map, length, slice_get, option_map, OnOk, IfOk, IsTrue};
ghost use Rattle.ts_fields.specs.Bits.{bits, bits_of};
ghost use Rattle.ts_fields.specs.Spelling;
ghost use Rattle.ts_fields.specs.Spelling.{spell_decimal, spell_field, spell_rows};
ghost use Rattle.ts_fields.specs.Layout.{held, rows_of};
ghost use Rattle.ts_fields.specs.SoundRows.{is_sound, are_sound};

use crate::field::{Field, FieldValue, Kind};
use std::alloc::{AllocError, Global};
use std::marker::Model;

/// The bits that were written so far.
#[derive(Drop)]
pub struct BitWriter {
    whole: Vec<u8>,
    pending: u8,
    count: u32,
}

impl Model for BitWriter {
    ghost use Rattle.std.specs.Prelude.{◌++◌, ◌<◌, ◌^◌, List, Bool};
    ghost use Rattle.ts_fields.specs.Bits.{bits, bits_of};

    ghost Value = { List Bool };

    ghost view = { λ w. bits_of w.whole.items ++ bits w.count w.pending };

    ghost invariant = { λ w. (w.count < 8) × (w.pending < 2 ^ w.count) };
}

impl BitWriter {
    /// A writer without bits.
    #[tactic(auto, unfolding(crate::specs::Bits::bits))]
    pub fn new(alloc: Global) -> BitWriter
        ensures { result ≡ [] }
    {
        BitWriter {
            whole: Vec::new(alloc),
            pending: 0,
            count: 0,
        }
    }

    /// Appends one bit.
    fn put_bit(&mut self, bit: bool) -> Result<(), AllocError>
        ensures { OnOk result (self.new ≡ self.old ++ bit ∷ []) }
    {
        let pending = 2 * self.pending + u8::from(bit);
        if self.count == 7 {
            self.whole.push(pending)?;
            self.pending = 0;
            self.count = 0;
        } else {
            self.pending = pending;
            self.count += 1;
        }
        Ok(())
    }

    /// Appends the last `count` bits of a number, most significant first.
    pub fn put(&mut self, count: u32, value: u64) -> Result<(), AllocError>
        requires { count ≤ 64 }
        ensures { OnOk result (self.new ≡ self.old ++ bits count value) }
    {
        for i in 0..count {
            self.put_bit((value >> (count - 1 - i)) & 1 == 1)?;
        }
        Ok(())
    }

    /// Appends bytes.
    pub fn put_bytes(&mut self, bytes: &[u8]) -> Result<(), AllocError>
        ensures { OnOk result (self.new ≡ self.old ++ bits_of bytes.now) }
    {
        for byte in bytes {
            self.put(8, u64::from(*byte))?;
        }
        Ok(())
    }

    /// Appends the last `digits` decimal digits of a number, four bits each, most significant first.
    pub fn put_decimal(&mut self, digits: u32, value: u64) -> Result<(), AllocError>
        requires { digits ≤ 8 }
        ensures { OnOk result (self.new ≡ self.old ++ spell_decimal digits value) }
    {
        for i in 0..digits {
            let digit = value / 10u64.pow(digits - 1 - i) % 10;
            self.put(4, digit)?;
        }
        Ok(())
    }

    /// Appends the bits of a field with this value; reserved bits are ones.
    #[tactic(auto, unfolding(crate::specs::Spelling::spell_field))]
    pub fn field(&mut self, kind: Kind, value: Option<&FieldValue>) -> Result<(), AllocError>
        requires { IsTrue (is_sound kind) }
        ensures { OnOk result (self.new
            ≡ self.old ++ spell_field kind (option_map (λ v. held v.now) value.entry)) }
    {
        match (kind, value) {
            (Kind::Ones(count) | Kind::Free(count), _) => self.put(count, (1 << count) - 1),
            (
                Kind::Number(count) | Kind::Reserved(count) | Kind::Zeros(count),
                Some(FieldValue::Number(number)),
            ) => self.put(count, *number),
            (Kind::Flag, Some(FieldValue::Number(number))) => self.put(1, *number),
            (Kind::Start, Some(FieldValue::Number(number))) => self.put(40, *number),
            (Kind::Duration, Some(FieldValue::Number(number))) => self.put(24, *number),
            (Kind::Decimal(digits), Some(FieldValue::Number(number))) => {
                self.put_decimal(digits, *number)
            }
            (Kind::CountedText | Kind::CountedHex, Some(FieldValue::Bytes(bytes))) => {
                self.put(8, bytes.len() as u64)?;
                self.put_bytes(bytes)
            }
            (Kind::Language | Kind::Text | Kind::Hex, Some(FieldValue::Bytes(bytes))) => {
                self.put_bytes(bytes)
            }
            _ => Ok(()),
        }
    }

    /// The bytes, where the bits are whole bytes.
    pub fn into_bytes(self) -> Vec<u8>
        requires { length self % 8 ≡ 0 }
        ensures { bits_of result.items ≡ self }
    {
        self.whole
    }
}

/// Appends the bits of fields with these values, in their order.
pub fn write_rows(
    out: &mut BitWriter,
    rows: &[Field],
    values: &[FieldValue],
) -> Result<(), AllocError>
    requires { IsTrue (are_sound (rows_of rows.now)) }
    ensures { OnOk result (out.new ≡ out.old ++ spell_rows (rows_of rows.now) (map held values.now)) }
{
    let mut next = 0;
    for field in rows {
        out.field(field.kind, value_at(values, next))?;
        next += field.kind.holds();
    }
    Ok(())
}

/// The value at an index; `None` past the end.
fn value_at(values: &[FieldValue], place: usize) -> Option<&FieldValue>
    ensures { option_map (λ v. v.now) result ≡ slice_get values.now place }
{
    values.get(place)
}
