//! Cutting a text at a sign.
ghost use Rattle.std.specs.Prelude.{◌≡◌, ◌==◌, ◌<◌, length, MatchOption};
ghost use Rattle.std.specs.List.{after_first, before_first, position_or_len};

/// The text before the first sign and the text after it; none where there is no sign.
pub fn split_at_sign(text: &str, sign: char) -> Option<(&str, &str)>
    requires { sign < 128 }
    ensures { MatchOption result (position_or_len (λ byte. byte == sign) text.now ≡ length text.now)
        (λ parts. (position_or_len (λ byte. byte == sign) text.now < length text.now)
        × (parts.0.now ≡ before_first (λ byte. byte == sign) text.now)
        × (parts.1.now ≡ after_first (λ byte. byte == sign) text.now)) }
{
    text.split_once(sign)
}
