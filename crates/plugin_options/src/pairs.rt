//! Pairs of numbers as words.
ghost use Rattle.std.specs.Prelude.{◌≡◌, ◌≤◌, ◌<◌, IfOk, IfSome, MatchResult, false, filter_map, length, map, true};
ghost use Rattle.std.specs.List.{All, list_all};
ghost use Rattle.plugin_options.specs.Forms.{has_form, pair};
ghost use Rattle.plugin_options.specs.Joined.{read_joined};
ghost use Rattle.plugin_options.specs.Pairs.{IsPairWithin, pair_of};
ghost use Rattle.plugin_options.specs.Refusal.{IsRefusedBy};
ghost use Rattle.plugin_options.specs.declared.words_rule.WordsRule.TheVariants.{Value};

use crate::PairList;
use crate::number::read_number_within;
use crate::refusal::Refusal;
use crate::signs::split_at_sign;
use crate::words_rule::WordsRule;
use std::alloc::{AllocError, Global};

/// Two numbers with a sign between them, each within its least and its greatest.
pub fn read_pair(
    text: &str,
    sign: char,
    first: (u64, u64),
    second: (u64, u64),
) -> Option<(u64, u64)>
    requires { sign < 128 }
    ensures value { result ≡ pair_of sign first second text.now }
    ensures first_range { IfSome result (λ pair. (first.0 ≤ pair.0) × (pair.0 ≤ first.1)) }
    ensures second_range { IfSome result (λ pair. (second.0 ≤ pair.1) × (pair.1 ≤ second.1)) }
{
    let (before, after) = split_at_sign(text, sign)?;
    let one = read_number_within(before, first.0, first.1)?;
    let other = read_number_within(after, second.0, second.1)?;
    Some((one, other))
}

/// The pairs in texts, each as `read_pair` reads it.
pub fn read_pairs(
    alloc: Global,
    texts: &[&str],
    sign: char,
    first: (u64, u64),
    second: (u64, u64),
) -> Result<PairList, Refusal>
    requires { sign < 128 }
    ensures reads { MatchResult result
        (λ list. (list_all (has_form (pair sign first second)) (map (λ text. text.now) texts.now) ≡ true)
        × (list ≡ filter_map (pair_of sign first second) (map (λ text. text.now) texts.now)))
        (IsRefusedBy Value (list_all (has_form (pair sign first second)) (map (λ text. text.now) texts.now) ≡ false)) }
    ensures many { IfOk result (λ list. length list ≡ length texts.now) }
    ensures range { IfOk result (All (λ p. (p.0 ≤ first.1) × (p.1 ≤ second.1))) }
{
    let mut pairs = Vec::new(alloc);
    for text in texts {
        let Some(pair) = read_pair(text, sign, first, second) else {
            return Err(Refusal::Broken(WordsRule::Value));
        };
        pairs.push(pair)?;
    }
    Ok(PairList::of(pairs))
}

/// The pairs in a text, joined by commas, each as `read_pair` reads it.
pub fn read_pair_list(
    alloc: Global,
    text: &str,
    sign: char,
    first: (u64, u64),
    second: (u64, u64),
) -> Result<Option<PairList>, AllocError>
    requires { sign < 128 }
    ensures value { IfOk result (λ list. list ≡ read_joined (pair_of sign first second) text.now) }
    ensures some { IfOk result (λ list. IfSome list (λ pairs. 1 ≤ length pairs)) }
    ensures range { IfOk result (λ list. IfSome list (All (IsPairWithin first second))) }
{
    let mut pairs = Vec::new(alloc);
    let mut rest = text;
    while let Some((part, others)) = split_at_sign(rest, ',') {
        let Some(pair) = read_pair(part, sign, first, second) else {
            return Ok(None);
        };
        pairs.push(pair)?;
        rest = others;
    }
    let Some(pair) = read_pair(rest, sign, first, second) else {
        return Ok(None);
    };
    pairs.push(pair)?;
    Ok(Some(PairList::of(pairs)))
}
