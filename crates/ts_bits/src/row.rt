//! Numbers of up to 64 bits at any place in bytes.

ghost use Rattle.std.specs.Prelude.{◌≡◌, ◌+◌, ◌*◌, ◌^◌, ◌<◌, ◌≤◌, ◌↔◌, length, IfOk, OnOk, OnErr, IsOk, IsTrue};
ghost use Rattle.ts_bit_rows.specs.BitRow.{field, SetsField};

/// The bytes end before the bits that were asked for.
#[derive(Debug, Clone, Copy, PartialEq, Eq)]
pub struct ShortInput;

/// The number that the `count` bits from bit `at` on give, highest bit first (ISO/IEC 13818-1,
/// 2.2.6). Bits are counted from the highest of the first byte. Allocates nothing.
pub fn bits(from: &[u8], at: usize, count: u32) -> Result<u64, ShortInput>
    requires { count ≤ 64 }
    ensures read { IfOk result (λ number. number ≡ field from.now at count) }
    ensures there { IsOk result ↔ (at + count ≤ 8 * length from.now) }
    ensures below { IfOk result (λ number. number < 2 ^ count) }
{
    if !has_bits(from, at, count) {
        return Err(ShortInput);
    }
    let before = at % 8;
    let size = (before + count as usize).div_ceil(8);
    let first = at / 8;
    let wide = whole_number(&from[first..first + size]);
    let behind = 8 * size - before - count as usize;
    Ok(((wide >> behind) & ((1u128 << count) - 1)) as u64)
}

/// Sets the `count` bits from bit `at` on to `value`, highest bit first, and nothing else.
/// Allocates nothing.
pub fn put_bits(into: &mut [u8], at: usize, count: u32, value: u64) -> Result<(), ShortInput>
    requires width { count ≤ 64 }
    requires fits { value < 2 ^ count }
    ensures written { OnOk result (SetsField into.old into.new at count value) }
    ensures there { IsOk result ↔ (at + count ≤ 8 * length into.old) }
    ensures unchanged { OnErr result (into.new ≡ into.old) }
{
    if !has_bits(into, at, count) {
        return Err(ShortInput);
    }
    let first = at / 8;
    let before = at % 8;
    for i in 0..count {
        let bit = (value >> (count - 1 - i)) & 1;
        let place = before + i as usize;
        put_bit(into, first + place / 8, place % 8, bit as u8);
    }
    Ok(())
}

/// Whether the bytes have the `count` bits from bit `at` on.
fn has_bits(row: &[u8], at: usize, count: u32) -> bool
    ensures { IsTrue result ↔ (at + count ≤ 8 * length row.now) }
{
    at as u128 + u128::from(count) <= 8 * row.len() as u128
}

/// The number that all bits of at most nine bytes give.
fn whole_number(row: &[u8]) -> u128
    requires { length row.now ≤ 9 }
    ensures { result ≡ field row.now 0 (8 * length row.now) }
{
    let mut number = 0;
    for byte in row {
        number = 256 * number + u128::from(*byte);
    }
    number
}

/// Sets one bit of one byte; `place` counts from the byte's highest bit.
fn put_bit(into: &mut [u8], index: usize, place: usize, bit: u8)
    requires there { index < length into.old }
    requires in_byte { place < 8 }
    requires one_bit { bit < 2 }
    ensures { SetsField into.old into.new (8 * index + place) 1 bit }
{
    let shift = 7 - place;
    let byte = into[index];
    into[index] = (byte & !(1 << shift)) | (bit << shift);
}
