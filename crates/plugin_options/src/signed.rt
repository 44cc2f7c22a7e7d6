//! Numbers with a sign as words.
ghost use Rattle.std.specs.Prelude.{◌≡◌, ◌⊎◌, ◌^◌, ◌≤ℤ◌, ◌<ℤ◌, pos, neg_ℤ, IfNone, IfSome};
ghost use Rattle.plugin_options.specs.Signed.{signed_of, signed_within};

use crate::number::read_number;

/// The number of a text, where 64 bits with a sign hold it; none where it is not a number with or without `-`.
fn read_signed(text: &str) -> Option<i64>
    ensures some { IfSome result (λ n. signed_of text.now ≡ Some n) }
    ensures none { IfNone result (IfSome (signed_of text.now) (λ n. (n <ℤ neg_ℤ (pos (2 ^ 63))) ⊎ (pos (2 ^ 63) ≤ℤ n))) }
{
    match text.strip_prefix("-") {
        Some(digits) => 0i64.checked_sub_unsigned(read_number(digits)?),
        None => 0i64.checked_add_unsigned(read_number(text)?),
    }
}

/// The number of a text, which may have `-` in front, where it lies between a least and a greatest.
pub fn read_signed_within(text: &str, least: i64, most: i64) -> Option<i64>
    ensures value { result ≡ signed_within least most text.now }
    ensures range { IfSome result (λ n. (least ≤ℤ n) × (n ≤ℤ most)) }
{
    let number = read_signed(text)?;
    if least <= number && number <= most {
        Some(number)
    } else {
        None
    }
}
