//! The options of a segment as `clap` finds them.
ghost use Rattle.std.specs.Prelude.{◌≡◌, ◌≤◌, ◌≤ℤ◌, ◌+◌, ◌==◌, ◌<◌, [], IfOk, IfSome, MatchResult, false, is_some, length, map, not, option_map, true, unwrap_or};
ghost use Rattle.std.specs.String.{string_bytes};
ghost use Rattle.clap.specs.Simple.{app_of};
ghost use Rattle.clap.specs.Faults.{is_simple_and_free};
ghost use Rattle.plugin_options.specs.NumberSet.{AllBelow};
ghost use Rattle.plugin_options.specs.Forms.{bytes, has_form, known as words_known, number, numbered, pair, pairs, part, ranges, ranges_from, signed, text as any_text};
ghost use Rattle.std.specs.List.{All, filter_map, list_all, list_any};
ghost use Rattle.std.specs.Option.{option_map_or};
ghost use Rattle.std.specs.Str.{bytes_eq};
ghost use Rattle.plugin_options.specs.HexText.{bytes_of};
ghost use Rattle.plugin_options.specs.Number.{number_within};
ghost use Rattle.plugin_options.specs.Options.{findings, has_flag, has_value, is_by_words, is_formed, is_taken, read_value, value_of, values_of};
ghost use Rattle.plugin_options.specs.Pairs.{IsPairWithin, pair_of, pairs_of};
ghost use Rattle.plugin_options.specs.Parts.{IsNumbered, all_numbered_of, part_of};
ghost use Rattle.plugin_options.specs.Ranges.{ranges_of, ranges_within};
ghost use Rattle.plugin_options.specs.Refusal.{IsRefusedBy};
ghost use Rattle.plugin_options.specs.Signed.{signed_within};
ghost use Rattle.plugin_options.specs.WordLists.{are_known, has_part};
ghost use Rattle.plugin_options.specs.declared.words_rule.WordsRule.TheVariants.{Shape, Value};

use crate::hex_text::read_bytes;
use crate::number::{read_number_within, read_numbers};
use crate::numbered::read_all_numbered;
use crate::pairs::{read_pair, read_pair_list, read_pairs};
use crate::part::Part;
use crate::part_text::read_part;
use crate::ranges::read_ranges;
use crate::refusal::Refusal;
use crate::signed::read_signed_within;
use crate::word_list::{are_known, has_part};
use crate::words_rule::WordsRule;
use crate::{NumberSet, NumberedParts, PairList};
use clap::error::ErrorKind;
use clap::parser::ValueSource;
use clap::{ArgMatches, Command};
use std::alloc::{AllocError, Global};
use std::marker::Model;
use ts_outside::{FileBytes, NameText};

/// What `clap` finds in the words of a segment; contracts see a row for each option.
#[derive(Drop)]
pub struct ParsedOptions<'a> {
    matches: ArgMatches<'a>,
}

impl<'a> Model for ParsedOptions<'a> {
    ghost use Rattle.std.specs.Prelude.{List};
    ghost use Rattle.clap.specs.Walk.{Row, rows_of};
    ghost use Rattle.clap.specs.Matches.{found_of};

    ghost Value = { List Row };

    ghost view = { λ f. rows_of (found_of f.matches) };
}

impl<'a> ParsedOptions<'a> {
    /// What the command finds in the words; the rule `Shape` is broken exactly where it does not take them.
    pub fn of(command: Command<'a>, words: &'a [String]) -> Result<ParsedOptions<'a>, Refusal>
        requires { is_simple_and_free (app_of command) ≡ true }
        ensures { MatchResult result
            (λ found. (is_taken (app_of command.entry) (map string_bytes words.entry.now) ≡ true)
            × (found ≡ findings (app_of command.entry) (map string_bytes words.entry.now)))
            (IsRefusedBy Shape (is_taken (app_of command.entry) (map string_bytes words.entry.now) ≡ false)) }
    {
        match command.try_get_matches_from(words) {
            Ok(matches) => Ok(ParsedOptions { matches }),
            Err(error) => match error.kind() {
                ErrorKind::OutOfMemory => Err(Refusal::NoMemory),
                _ => Err(Refusal::Broken(WordsRule::Shape)),
            },
        }
    }

    /// Whether the flag is given.
    pub fn has_flag(&self, name: &str) -> bool
        ensures { result ≡ has_flag name.now self.now }
    {
        is_from_words(self.matches.value_source(name))
    }

    /// The value of an option or of an operand; none where it is not given.
    pub fn value(&self, name: &str) -> Option<&'a str>
        ensures { option_map (λ text. text.now) result ≡ value_of name.now self.now }
    {
        self.matches.get_str(name)
    }

    /// Whether an option or an operand is given.
    pub fn has_value(&self, name: &str) -> bool
        ensures { result ≡ has_value name.now self.now }
    {
        self.value(name).is_some()
    }

    /// The number of an option or of an operand, from a least to a greatest; none where it is not given.
    pub fn number(&self, name: &str, least: u64, most: u64) -> Result<Option<u64>, Refusal>
        ensures reads { MatchResult result
            (λ n. (is_formed (number least most) name.now self.now ≡ true)
            × (n ≡ read_value (number_within least most) name.now self.now))
            (IsRefusedBy Value (is_formed (number least most) name.now self.now ≡ false)) }
        ensures range { IfOk result (λ n. IfSome n (λ k. (least ≤ k) × (k ≤ most))) }
        ensures given { IfOk result (λ n. is_some n ≡ has_value name.now self.now) }
    {
        let Some(text) = self.value(name) else {
            return Ok(None);
        };
        match read_number_within(text, least, most) {
            Some(number) => Ok(Some(number)),
            None => Err(Refusal::Broken(WordsRule::Value)),
        }
    }

    /// The number of an option or of an operand, from a least to a greatest; `default` where it is not given.
    pub fn number_or(&self, name: &str, least: u64, most: u64, default: u64) -> Result<u64, Refusal>
        requires low { least ≤ default }
        requires high { default ≤ most }
        ensures reads { MatchResult result
            (λ n. (is_formed (number least most) name.now self.now ≡ true)
            × (n ≡ unwrap_or (read_value (number_within least most) name.now self.now) default))
            (IsRefusedBy Value (is_formed (number least most) name.now self.now ≡ false)) }
        ensures range { IfOk result (λ n. (least ≤ n) × (n ≤ most)) }
    {
        let number = self.number(name, least, most)?;
        Ok(number.unwrap_or(default))
    }

    /// The number of an option, from a least to a greatest, where `-` in front is below 0; none where it is not given.
    pub fn signed(&self, name: &str, least: i64, most: i64) -> Result<Option<i64>, Refusal>
        ensures reads { MatchResult result
            (λ n. (is_formed (signed least most) name.now self.now ≡ true)
            × (n ≡ read_value (signed_within least most) name.now self.now))
            (IsRefusedBy Value (is_formed (signed least most) name.now self.now ≡ false)) }
        ensures range { IfOk result (λ n. IfSome n (λ k. (least ≤ℤ k) × (k ≤ℤ most))) }
        ensures given { IfOk result (λ n. is_some n ≡ has_value name.now self.now) }
    {
        let Some(text) = self.value(name) else {
            return Ok(None);
        };
        match read_signed_within(text, least, most) {
            Some(number) => Ok(Some(number)),
            None => Err(Refusal::Broken(WordsRule::Value)),
        }
    }

    /// The two numbers of an option, joined by a sign; none where it is not given.
    pub fn pair(
        &self,
        name: &str,
        sign: char,
        first: (u64, u64),
        second: (u64, u64),
    ) -> Result<Option<(u64, u64)>, Refusal>
        requires { sign < 128 }
        ensures reads { MatchResult result
            (λ n. (is_formed (pair sign first second) name.now self.now ≡ true)
            × (n ≡ read_value (pair_of sign first second) name.now self.now))
            (IsRefusedBy Value (is_formed (pair sign first second) name.now self.now ≡ false)) }
        ensures first_range { IfOk result (λ n. IfSome n (λ p. (first.0 ≤ p.0) × (p.0 ≤ first.1))) }
        ensures second_range { IfOk result (λ n. IfSome n (λ p. (second.0 ≤ p.1) × (p.1 ≤ second.1))) }
    {
        let Some(text) = self.value(name) else {
            return Ok(None);
        };
        match read_pair(text, sign, first, second) {
            Some(pair) => Ok(Some(pair)),
            None => Err(Refusal::Broken(WordsRule::Value)),
        }
    }

    /// The numbers and ranges of an option, none above a greatest; an empty set where it is not given.
    #[tactic(auto, unfolding(crate::specs::Ranges::ranges_of))]
    pub fn ranges(&self, alloc: Global, name: &str, most: u64) -> Result<NumberSet, Refusal>
        ensures reads { MatchResult result
            (λ set. (is_formed (ranges most) name.now self.now ≡ true)
            × (set ≡ unwrap_or (read_value (ranges_of most) name.now self.now) []))
            (IsRefusedBy Value (is_formed (ranges most) name.now self.now ≡ false)) }
        ensures range { IfOk result (AllBelow (most + 1)) }
        ensures given { IfOk result (λ set. has_value name.now self.now ≡ not (length set == 0)) }
    {
        let Some(text) = self.value(name) else {
            return Ok(NumberSet::of(Vec::new(alloc)));
        };
        match read_ranges(alloc, text, 0, most)? {
            Some(set) => Ok(set),
            None => Err(Refusal::Broken(WordsRule::Value)),
        }
    }

    /// The numbers and ranges of an option, from a least to a greatest; an empty set where it is not given.
    #[tactic(auto, unfolding(crate::specs::Ranges::ranges_within))]
    pub fn ranges_from(
        &self,
        alloc: Global,
        name: &str,
        least: u64,
        most: u64,
    ) -> Result<NumberSet, Refusal>
        ensures reads { MatchResult result
            (λ set. (is_formed (ranges_from least most) name.now self.now ≡ true)
            × (set ≡ unwrap_or (read_value (ranges_within least most) name.now self.now) []))
            (IsRefusedBy Value (is_formed (ranges_from least most) name.now self.now ≡ false)) }
        ensures below { IfOk result (AllBelow (most + 1)) }
        ensures above { IfOk result (All (λ pair. least ≤ pair.0)) }
        ensures given { IfOk result (λ set. has_value name.now self.now ≡ not (length set == 0)) }
    {
        let Some(text) = self.value(name) else {
            return Ok(NumberSet::of(Vec::new(alloc)));
        };
        match read_ranges(alloc, text, least, most)? {
            Some(set) => Ok(set),
            None => Err(Refusal::Broken(WordsRule::Value)),
        }
    }

    /// The pairs of an option, joined by commas, each of two numbers joined by a sign; an empty list where it is not
    /// given.
    #[tactic(auto, unfolding(crate::specs::Pairs::pairs_of))]
    pub fn pair_list(
        &self,
        alloc: Global,
        name: &str,
        sign: char,
        first: (u64, u64),
        second: (u64, u64),
    ) -> Result<PairList, Refusal>
        requires { sign < 128 }
        ensures reads { MatchResult result
            (λ list. (is_formed (pairs sign first second) name.now self.now ≡ true)
            × (list ≡ unwrap_or (read_value (pairs_of sign first second) name.now self.now) []))
            (IsRefusedBy Value (is_formed (pairs sign first second) name.now self.now ≡ false)) }
        ensures range { IfOk result (All (IsPairWithin first second)) }
        ensures given { IfOk result (λ list. has_value name.now self.now ≡ not (length list == 0)) }
    {
        let Some(text) = self.value(name) else {
            return Ok(PairList::of(Vec::new(alloc)));
        };
        match read_pair_list(alloc, text, sign, first, second)? {
            Some(list) => Ok(list),
            None => Err(Refusal::Broken(WordsRule::Value)),
        }
    }

    /// The bytes of an operand, of a least to a greatest number of bytes; none where it is not given.
    pub fn bytes(
        &self,
        alloc: Global,
        name: &str,
        least: usize,
        most: usize,
    ) -> Result<FileBytes, Refusal>
        ensures reads { MatchResult result
            (λ row. (is_formed (bytes least most) name.now self.now ≡ true)
            × (row ≡ unwrap_or (read_value (bytes_of least most) name.now self.now) []))
            (IsRefusedBy Value (is_formed (bytes least most) name.now self.now ≡ false)) }
        ensures range { has_value name.now self.now ≡ true
            → IfOk result (λ row. (least ≤ length row) × (length row ≤ most)) }
    {
        let Some(text) = self.value(name) else {
            return Ok(FileBytes::of(Vec::new(alloc)));
        };
        match read_bytes(alloc, text, least, most)? {
            Some(bytes) => Ok(bytes),
            None => Err(Refusal::Broken(WordsRule::Value)),
        }
    }

    /// The bytes of the part of an option, a code or whole descriptors; none where it is not given.
    pub fn part(&self, alloc: Global, name: &str, what: Part) -> Result<FileBytes, Refusal>
        ensures reads { MatchResult result
            (λ row. (is_formed (part what) name.now self.now ≡ true)
            × (row ≡ unwrap_or (read_value (part_of what) name.now self.now) []))
            (IsRefusedBy Value (is_formed (part what) name.now self.now ≡ false)) }
    {
        let Some(text) = self.value(name) else {
            return Ok(FileBytes::of(Vec::new(alloc)));
        };
        match read_part(alloc, text, what)? {
            Some(bytes) => Ok(bytes),
            None => Err(Refusal::Broken(WordsRule::Value)),
        }
    }

    /// The parts of an option, joined by commas, each behind a number and a sign; an empty list where it is not given.
    #[tactic(auto, unfolding(crate::specs::Parts::all_numbered_of))]
    pub fn numbered_parts(
        &self,
        alloc: Global,
        name: &str,
        sign: char,
        range: (u64, u64),
        what: Part,
    ) -> Result<NumberedParts, Refusal>
        requires { sign < 128 }
        ensures reads { MatchResult result
            (λ list. (is_formed (numbered sign range what) name.now self.now ≡ true)
            × (list ≡ unwrap_or (read_value (all_numbered_of sign range what) name.now self.now) []))
            (IsRefusedBy Value (is_formed (numbered sign range what) name.now self.now ≡ false)) }
        ensures range { IfOk result (All (IsNumbered range what)) }
    {
        let Some(text) = self.value(name) else {
            return Ok(NumberedParts::of(Vec::new(alloc)));
        };
        match read_all_numbered(alloc, text, sign, range, what)? {
            Some(list) => Ok(list),
            None => Err(Refusal::Broken(WordsRule::Value)),
        }
    }

    /// The operands, of which there may be any number, as texts.
    pub fn texts(&self, name: &str) -> &[&'a str]
        ensures { map (λ text. text.now) result.now ≡ values_of name.now self.now }
    {
        self.values(name).unwrap_or_default()
    }

    /// The operands, of which there may be any number; `None` where there is none.
    fn values(&self, name: &str) -> Option<&[&'a str]>
        ensures { unwrap_or (option_map (λ texts. map (λ text. text.now) texts.now) result) [] ≡ values_of name.now self.now }
    {
        self.matches.get_strs(name)
    }

    /// Whether an operand is given.
    pub fn has_values(&self, name: &str) -> bool
        ensures { result ≡ not (length (values_of name.now self.now) == 0) }
    {
        match self.values(name) {
            Some(texts) => !texts.is_empty(),
            None => false,
        }
    }

    /// The operands as pairs, each of two numbers joined by a sign.
    pub fn pairs(
        &self,
        alloc: Global,
        name: &str,
        sign: char,
        first: (u64, u64),
        second: (u64, u64),
    ) -> Result<PairList, Refusal>
        requires { sign < 128 }
        ensures reads { MatchResult result
            (λ list. (list_all (has_form (pair sign first second)) (values_of name.now self.now) ≡ true)
            × (list ≡ filter_map (pair_of sign first second) (values_of name.now self.now)))
            (IsRefusedBy Value (list_all (has_form (pair sign first second)) (values_of name.now self.now) ≡ false)) }
        ensures many { IfOk result (λ list. length list ≡ length (values_of name.now self.now)) }
        ensures range { IfOk result (All (λ p. (p.0 ≤ first.1) × (p.1 ≤ second.1))) }
    {
        match self.values(name) {
            Some(texts) => read_pairs(alloc, texts, sign, first, second),
            None => Ok(PairList::of(Vec::new(alloc))),
        }
    }

    /// The operands as numbers in their order, from a least to a greatest.
    pub fn numbers(
        &self,
        alloc: Global,
        name: &str,
        least: u64,
        most: u64,
    ) -> Result<Vec<u64>, Refusal>
        ensures reads { MatchResult result
            (λ numbers. (list_all (has_form (number least most)) (values_of name.now self.now) ≡ true)
            × (numbers.items ≡ filter_map (number_within least most) (values_of name.now self.now)))
            (IsRefusedBy Value (list_all (has_form (number least most)) (values_of name.now self.now) ≡ false)) }
        ensures many { IfOk result (λ numbers. length numbers.items ≡ length (values_of name.now self.now)) }
        ensures range { IfOk result (λ numbers. All (λ n. (least ≤ n) × (n ≤ most)) numbers.items) }
    {
        match self.values(name) {
            Some(texts) => read_numbers(alloc, texts, least, most),
            None => Ok(Vec::new(alloc)),
        }
    }

    /// Whether each of the words of an option, joined by commas, is one of these; so it is where it is not given.
    pub fn are_words(&self, name: &str, known: &[&str]) -> bool
        ensures { result ≡ is_formed (words_known (are_known (λ word. list_any (λ one. bytes_eq one.now word) known.now))) name.now self.now }
    {
        match self.value(name) {
            Some(text) => are_known(text, known),
            None => true,
        }
    }

    /// Whether a word is one of those of an option, joined by commas; it is none where the option is not given.
    pub fn has_word(&self, name: &str, word: &str) -> bool
        ensures { result ≡ option_map_or (has_part word.now) (value_of name.now self.now) false }
    {
        match self.value(name) {
            Some(text) => has_part(text, word),
            None => false,
        }
    }

    /// The text of an operand; the empty text where it is not given.
    pub fn text(&self, alloc: Global, name: &str) -> Result<NameText, AllocError>
        ensures { IfOk result (λ text. text ≡ unwrap_or (value_of name.now self.now) []) }
    {
        match self.value(name) {
            Some(text) => Ok(NameText::of(String::from_str(alloc, text)?)),
            None => Ok(NameText::of(String::new(alloc))),
        }
    }

    /// The text of an option, which may be empty; none where it is not given.
    pub fn optional_text(&self, alloc: Global, name: &str) -> Result<Option<NameText>, AllocError>
        ensures reads { IfOk result (λ given. given ≡ value_of name.now self.now) }
        ensures formed { is_formed any_text name.now self.now ≡ true }
    {
        match self.value(name) {
            Some(text) => Ok(Some(NameText::of(String::from_str(alloc, text)?))),
            None => Ok(None),
        }
    }
}

// Whether it is from the words, and not a default.
fn is_from_words(source: Option<ValueSource>) -> bool
    ensures { result ≡ is_by_words source }
{
    match source {
        Some(ValueSource::CommandLine) => true,
        _ => false,
    }
}
