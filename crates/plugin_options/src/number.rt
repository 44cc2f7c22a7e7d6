//! Numbers as words.
ghost use Rattle.std.specs.Prelude.{◌≡◌, ◌⊎◌, ◌≤◌, ◌^◌, IfNone, IfOk, IfSome, MatchResult, false, filter_map, length, map, true};
ghost use Rattle.std.specs.List.{All, list_all};
ghost use Rattle.plugin_options.specs.Forms.{has_form, number as a_number};
ghost use Rattle.plugin_options.specs.Number.{number_of, number_within, numeral};
ghost use Rattle.plugin_options.specs.Refusal.{IsRefusedBy};
ghost use Rattle.plugin_options.specs.declared.words_rule.WordsRule.TheVariants.{Value};

use crate::refusal::Refusal;
use crate::words_rule::WordsRule;
use std::alloc::Global;

/// The number that the digits write, where it is below 2^64; none where they are not digits.
fn read_numeral(digits: &str, radix: u32) -> Option<u64>
    requires { (radix ≡ 10) ⊎ (radix ≡ 16) }
    ensures some { IfSome result (λ n. numeral radix digits.now ≡ Some n) }
    ensures none { IfNone result (IfSome (numeral radix digits.now) (λ n. 2 ^ 64 ≤ n)) }
{
    // A sign is not a digit here, but std accepts one.
    if digits.starts_with('+') {
        return None;
    }
    u64::from_str_radix(digits, radix).ok()
}

/// The number of a text, where it is below 2^64; none where it is not a number.
pub(crate) fn read_number(text: &str) -> Option<u64>
    ensures some { IfSome result (λ n. number_of text.now ≡ Some n) }
    ensures none { IfNone result (IfSome (number_of text.now) (λ n. 2 ^ 64 ≤ n)) }
{
    match text.strip_prefix("0x") {
        Some(digits) => read_numeral(digits, 16),
        None => read_numeral(text, 10),
    }
}

/// The number of a text, where it lies between a least and a greatest.
pub fn read_number_within(text: &str, least: u64, most: u64) -> Option<u64>
    ensures value { result ≡ number_within least most text.now }
    ensures range { IfSome result (λ n. (least ≤ n) × (n ≤ most)) }
{
    let number = read_number(text)?;
    if least <= number && number <= most {
        Some(number)
    } else {
        None
    }
}

/// The numbers of texts in their order, each as `read_number_within` reads it; `Value` is broken where one of them is none.
pub fn read_numbers(
    alloc: Global,
    texts: &[&str],
    least: u64,
    most: u64,
) -> Result<Vec<u64>, Refusal>
    ensures reads { MatchResult result
        (λ numbers. (list_all (has_form (a_number least most)) (map (λ text. text.now) texts.now) ≡ true)
        × (numbers.items ≡ filter_map (number_within least most) (map (λ text. text.now) texts.now)))
        (IsRefusedBy Value (list_all (has_form (a_number least most)) (map (λ text. text.now) texts.now) ≡ false)) }
    ensures many { IfOk result (λ numbers. length numbers.items ≡ length texts.now) }
    ensures range { IfOk result (λ numbers. All (λ n. (least ≤ n) × (n ≤ most)) numbers.items) }
{
    let mut numbers = Vec::new(alloc);
    for text in texts {
        let Some(number) = read_number_within(text, least, most) else {
            return Err(Refusal::Broken(WordsRule::Value));
        };
        numbers.push(number)?;
    }
    Ok(numbers)
}
