//! Numbers and Booleans of JSON, and the same as texts.

ghost use Rattle.std.specs.Prelude.{◌≡◌, ◌⊎◌, ◌≤◌, ◌^◌, IfNone, IfSome, option_map};
ghost use Rattle.serde_json.specs.View.{view};
ghost use Rattle.ts_jtree.specs.Numbers;
ghost use Rattle.ts_jtree.specs.Numbers.{numeral, capped, number_of, bit_of, bit_of_word};

use serde_json::Value;

/// The number that digits write; none where it does not fit in 64 bits or they are not digits.
fn read_numeral(digits: &str, radix: u32) -> Option<u64>
    requires { (radix ≡ 10) ⊎ (radix ≡ 16) }
    ensures some { IfSome result (λ n. numeral radix digits.now ≡ Some n) }
    ensures none { IfNone result (IfSome (numeral radix digits.now) (λ n. 2 ^ 64 ≤ n)) }
{
    // A sign is not a digit here, but std accepts one.
    if digits.starts_with('+') {
        return None;
    }
    u64::from_str_radix(digits, radix).ok()
}

/// Whether each byte is a digit in the radix.
fn are_digits(digits: &[u8], radix: u32) -> bool
    requires { (radix ≡ 10) ⊎ (radix ≡ 16) }
    ensures { result ≡ Numbers.are_digits radix digits.now }
{
    for byte in digits {
        if char::from(*byte).to_digit(radix).is_none() {
            return false;
        }
    }
    true
}

/// The number that digits write, or `u64::MAX` where it is greater; none where they are not digits.
fn number_of_digits(digits: &str, radix: u32) -> Option<u64>
    requires { (radix ≡ 10) ⊎ (radix ≡ 16) }
    ensures { result ≡ option_map capped (numeral radix digits.now) }
{
    if digits.is_empty() {
        return None;
    }
    if !are_digits(digits.as_bytes(), radix) {
        return None;
    }
    match read_numeral(digits, radix) {
        Some(number) => Some(number),
        None => Some(u64::MAX),
    }
}

/// The number that a text writes, or `u64::MAX` where it is greater; none where it is not a number.
fn number_of_text(text: &str) -> Option<u64>
    ensures { result ≡ option_map capped (Numbers.number_of_text text.now) }
{
    match text.strip_prefix("0x") {
        Some(digits) => number_of_digits(digits, 16),
        None => number_of_digits(text, 10),
    }
}

/// The number of a value: a whole number that is not negative, or a text of decimal digits, or of `0x` and
/// hexadecimal digits. For a text of a greater number it is `u64::MAX`.
#[tactic(auto, unfolding(crate::specs::Numbers::number_of))]
pub fn number_of_value(value: &Value) -> Option<u64>
    ensures { result ≡ option_map capped (number_of (view value.now)) }
{
    if let Some(number) = value.as_u64() {
        return Some(number);
    }
    let text = value.as_str()?;
    number_of_text(text)
}

/// The Boolean of a word, as a bit.
fn bit_of_text(text: &str) -> Option<u64>
    ensures { result ≡ bit_of_word text.now }
{
    if text == "true" {
        return Some(1);
    }
    if text == "false" {
        return Some(0);
    }
    None
}

/// The Boolean of a value, as a bit: `true`, `false`, or these words as text.
#[tactic(auto, unfolding(crate::specs::Numbers::bit_of))]
pub fn truth_of_value(value: &Value) -> Option<u64>
    ensures { result ≡ bit_of (view value.now) }
{
    if let Some(truth) = value.as_bool() {
        return Some(u64::from(truth));
    }
    let text = value.as_str()?;
    bit_of_text(text)
}
