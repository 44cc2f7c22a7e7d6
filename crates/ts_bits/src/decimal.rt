//! Decimal numbers of four bits a digit (BCD).

ghost use Rattle.std.specs.Prelude.{◌≡◌, ◌+◌, ◌*◌, ◌%◌, ◌^◌, ◌<◌, ◌≤◌, ◌↔◌, length, IfOk, OnOk, OnErr, IfErr, IsOk};
ghost use Rattle.ts_bit_rows.specs.BitRow.{field};
ghost use Rattle.ts_bits.specs.Decimal.{decimal, AreDigits, IsBcdFault, SetsDecimal, packed};

use crate::row::{ShortInput, bits, put_bits};

/// Why half-bytes are not a decimal number.
#[derive(Debug, Clone, Copy, PartialEq, Eq)]
pub enum BcdFault {
    /// The row ends before the last digit.
    Short,
    /// The half-byte at `place`, from 0 at the first digit, is above 9.
    Digit { place: u32 },
}

/// The number of `digits` decimal digits of four bits each from bit `at` on, highest first
/// (ETSI EN 300 468, 5.2.5). Allocates nothing.
pub fn bcd(from: &[u8], at: usize, digits: u32) -> Result<u64, BcdFault>
    requires { digits ≤ 8 }
    ensures read { IfOk result (λ number. number ≡ decimal from.now at digits) }
    ensures there { OnOk result (at + 4 * digits ≤ 8 * length from.now) }
    ensures digits { OnOk result (AreDigits from.now at digits) }
    ensures below { IfOk result (λ number. number < 10 ^ digits) }
    ensures refused { IfErr result (IsBcdFault from.now at digits) }
{
    let Ok(packed) = bits(from, at, 4 * digits) else {
        return Err(BcdFault::Short);
    };
    let mut number = 0;
    for place in 0..digits {
        let digit = (packed >> (4 * (digits - 1 - place))) & 0x0F;
        if digit > 9 {
            return Err(BcdFault::Digit { place });
        }
        number = 10 * number + digit;
    }
    Ok(number)
}

/// Writes `value` as `digits` decimal digits of four bits each from bit `at` on, and changes
/// nothing else. Allocates nothing.
pub fn put_bcd(into: &mut [u8], at: usize, digits: u32, value: u64) -> Result<(), ShortInput>
    requires count { digits ≤ 8 }
    requires fits { value < 10 ^ digits }
    ensures written { OnOk result (SetsDecimal into.old into.new at digits value) }
    ensures there { IsOk result ↔ (at + 4 * digits ≤ 8 * length into.old) }
    ensures unchanged { OnErr result (into.new ≡ into.old) }
{
    put_bits(into, at, 4 * digits, packed_digits(digits, value))
}

/// The number whose last half-bytes are the decimal digits of `value`.
fn packed_digits(digits: u32, value: u64) -> u64
    requires { digits ≤ 8 }
    ensures digits { result ≡ packed digits value }
    ensures width { result < 2 ^ (4 * digits) }
{
    if digits == 0 {
        return 0;
    }
    16 * packed_digits(digits - 1, value / 10) + value % 10
}
