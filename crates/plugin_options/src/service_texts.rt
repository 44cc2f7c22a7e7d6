//! Services as words.
ghost use Rattle.std.specs.Char.{digit_value};
ghost use Rattle.std.specs.List.{list_all};
ghost use Rattle.std.specs.Prelude.{◌≡◌, ◌≤◌, is_some, nat_lt};
ghost use Rattle.plugin_options.specs.Number.{is_numeral, number_of};
ghost use Rattle.plugin_options.specs.ServiceTexts;

use crate::limits::LAST_SERVICE;
use crate::number::read_number_within;

/// Whether a text says which service is meant: a number from 1 to 65535, or, where it is no number, a name.
pub fn is_service(text: &str) -> bool
    ensures { result ≡ ServiceTexts.is_service text.now }
{
    if is_number(text) {
        return read_number_within(text, 1, LAST_SERVICE).is_some();
    }
    !text.is_empty()
}

/// Whether a text is a number, as large as it may be.
pub fn is_number(text: &str) -> bool
    ensures { result ≡ is_some (number_of text.now) }
{
    match text.strip_prefix("0x") {
        Some(digits) => is_hexadecimal(digits),
        None => is_decimal(text),
    }
}

// Whether there are digits, and nothing else.
fn is_decimal(digits: &str) -> bool
    ensures { result ≡ is_numeral 10 digits.now }
{
    let bytes = digits.as_bytes();
    bytes.len() > 0 && are_decimal(bytes)
}

fn is_hexadecimal(digits: &str) -> bool
    ensures { result ≡ is_numeral 16 digits.now }
{
    let bytes = digits.as_bytes();
    bytes.len() > 0 && are_hexadecimal(bytes)
}

fn are_decimal(digits: &[u8]) -> bool
    ensures { result ≡ list_all (λ digit. nat_lt (digit_value digit) 10) digits.now }
{
    digits.iter().all(|digit| is_digit(*digit, 10))
}

fn are_hexadecimal(digits: &[u8]) -> bool
    ensures { result ≡ list_all (λ digit. nat_lt (digit_value digit) 16) digits.now }
{
    digits.iter().all(|digit| is_digit(*digit, 16))
}

fn is_digit(digit: u8, radix: u32) -> bool
    requires low { 2 ≤ radix }
    requires high { radix ≤ 36 }
    ensures { result ≡ nat_lt (digit_value digit) radix }
{
    char::from(digit).is_digit(radix)
}
