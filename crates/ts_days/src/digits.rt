//! Decimal digits of a text.

ghost use Rattle.std.specs.Prelude.{◌≡◌, ◌≤◌, ◌<◌, length, IfSome};
ghost use Rattle.ts_days.specs.Digits;

/// The value of the digit at a place of a text; none where no digit is there.
pub fn digit_at(text: &[u8], place: usize) -> Option<u32>
    requires { place < length text.now }
    ensures digit { result ≡ Digits.digit_at text.now place }
    ensures small { IfSome result (λ digit. digit ≤ 9) }
{
    let byte = text[place];
    if byte < b'0' || byte > b'9' {
        return None;
    }
    Some(u32::from(byte - b'0'))
}

/// The ASCII byte of the last digit of a number.
pub fn last_digit(number: u32) -> u8
    ensures { result ≡ Digits.last_digit number }
{
    b'0' + (number % 10) as u8
}
