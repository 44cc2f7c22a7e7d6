//! The options that plugins have besides their own: `--only-label`, which every one has, and `--every`, which those have that
//! have a summary.
ghost use Rattle.std.specs.Prelude.{◌≡◌, ◌≤◌, ◌&&◌, ◌∷◌, [], IfOk, IfSome, MatchResult, None, codes, false, fold, not, true};
ghost use Rattle.clap.specs.Simple.{app_of, with_rule};
ghost use Rattle.plugin_options.specs.Forms.{ranges};
ghost use Rattle.plugin_options.specs.NumberSet.{AllBelow};
ghost use Rattle.plugin_options.specs.Options.{has_flag, has_value, is_formed, read_value, rule_of_kind};
ghost use Rattle.plugin_options.specs.OptionWords.{row_of_word, rows_of_options};
ghost use Rattle.plugin_options.specs.Ranges.{ranges_of};
ghost use Rattle.plugin_options.specs.Refusal.{IsRefusedBy};
ghost use Rattle.plugin_options.specs.declared.limits.TheConstants.{MOST_PACKETS as MOST_EVERY};
ghost use Rattle.plugin_options.specs.declared.words_rule.WordsRule.TheVariants.{Value};
ghost use Rattle.plugin_settings.specs.Items.{IsSharedRefusal, are_shared_formed, counts_of, every_of, excludes_every, is_every_formed, only_label_row, shared_broken, shared_rows};

use clap::Command;
use plugin_options::{
    Beside, LAST_LABEL, MOST_PACKETS, Need, NumberSet, OptionRow, OptionText, OptionWord,
    ParsedOptions, Refusal, Takes, WordsRule, with_value,
};
use std::alloc::{AllocError, Global};
use ts_packet::LABEL_COUNT;

// Both, with that of every plugin last.
static SHARED: [OptionRow; 2] = [
    OptionRow {
        word: OptionWord::Value("every", Takes::Number(1, MOST_PACKETS)),
        text: OptionText {
            value: "N",
            meaning: "1 to 2^40: give the summary so far at each N-th packet that the plugin sees, too",
            need: Need::Free,
            beside: Beside::Any,
        },
    },
    OptionRow {
        word: OptionWord::Value("only-label", Takes::Ranges(LAST_LABEL)),
        text: OptionText {
            value: "LIST",
            meaning: "0 to 31: see only packets that have a label of the list",
            need: Need::Free,
            beside: Beside::Any,
        },
    },
];

/// The options that a plugin has after its own, where it has a summary or not.
pub fn further_options(has_summary: bool) -> &'static [OptionRow<'static>]
    ensures { rows_of_options result.now ≡ shared_rows has_summary }
{
    if has_summary { &SHARED } else { &SHARED[1..] }
}

/// The command of a plugin's own options, with those that it shares.
pub(crate) fn with_shared_options<'a>(
    alloc: Global,
    own: Command<'a>,
    has_summary: bool,
) -> Result<Command<'a>, AllocError>
    ensures { IfOk result (λ command. app_of command
        ≡ fold (λ a row. with_rule a (rule_of_kind row.name row.kind)) (app_of own.entry) (shared_rows has_summary)) }
{
    if has_summary {
        return with_value(alloc, with_value(alloc, own, "every")?, "only-label");
    }
    with_value(alloc, own, "only-label")
}

/// What is found of them.
#[derive(Drop)]
pub(crate) struct SharedOptions {
    /// After how many packets there is a summary so far; `None` where there is none.
    pub(crate) every: Option<u64>,
    /// Whether a line before each says how many packets were seen.
    pub(crate) counts: bool,
    /// The labels that the plugin sees; `None` where it sees every packet.
    pub(crate) only: Option<NumberSet>,
}

// After how many packets there is a summary so far.
fn every_packets(has_summary: bool, found: &ParsedOptions) -> Result<Option<u64>, Refusal>
    ensures reads { MatchResult result
        (λ every. (is_every_formed has_summary found.now ≡ true) × (every ≡ every_of has_summary found.now))
        (IsRefusedBy Value (is_every_formed has_summary found.now ≡ false)) }
    ensures range { IfOk result (λ every. IfSome every (λ n. (1 ≤ n) × (n ≤ MOST_EVERY))) }
{
    if !has_summary {
        return Ok(None);
    }
    found.number("every", 1, MOST_PACKETS)
}

// The labels of `--only-label`, where it is given.
fn only_labels(alloc: Global, found: &ParsedOptions) -> Result<Option<NumberSet>, Refusal>
    ensures reads { MatchResult result
        (λ only. (is_formed (ranges LAST_LABEL) (codes "only-label") found.now ≡ true)
        × (only ≡ read_value (ranges_of LAST_LABEL) (codes "only-label") found.now))
        (IsRefusedBy Value (is_formed (ranges LAST_LABEL) (codes "only-label") found.now ≡ false)) }
    ensures range { IfOk result (λ only. IfSome only (AllBelow LABEL_COUNT)) }
{
    if !found.has_value("only-label") {
        return Ok(None);
    }
    let only = found.ranges(alloc, "only-label", LAST_LABEL)?;
    Ok(Some(only))
}

/// The values of both, of which one that is not well-formed is refused.
pub(crate) fn shared_values(
    alloc: Global,
    has_summary: bool,
    found: &ParsedOptions,
) -> Result<SharedOptions, Refusal>
    ensures formed { MatchResult result (λ _. are_shared_formed has_summary found.now ≡ true)
        (IsRefusedBy Value (are_shared_formed has_summary found.now ≡ false)) }
    ensures every { IfOk result (λ shared. shared.every ≡ every_of has_summary found.now) }
    ensures counts { IfOk result (λ shared. shared.counts ≡ counts_of found.now) }
    ensures only { IfOk result (λ shared. shared.only ≡ read_value (ranges_of LAST_LABEL) (codes "only-label") found.now) }
    ensures every_range { IfOk result (λ shared. IfSome shared.every (λ n. (1 ≤ n) × (n ≤ MOST_EVERY))) }
    ensures only_range { IfOk result (λ shared. IfSome shared.only (AllBelow LABEL_COUNT)) }
{
    let every = every_packets(has_summary, found)?;
    let only = only_labels(alloc, found)?;
    let counts = !found.has_flag("json");
    Ok(SharedOptions {
        every,
        counts,
        only,
    })
}

// Lines between commas are a table, in which no summary stands.
fn excludes_every(found: &ParsedOptions) -> bool
    ensures { result ≡ excludes_every found.now }
{
    if !found.has_value("every") {
        return false;
    }
    found.has_flag("csv")
}

/// What is found of the options that a plugin shares, where those of its own break no rule.
pub(crate) fn read_shared(
    alloc: Global,
    has_summary: bool,
    found: &ParsedOptions,
) -> Result<SharedOptions, Refusal>
    ensures reads { MatchResult result (λ _. shared_broken has_summary found.now ≡ None) (IsSharedRefusal has_summary found.now) }
    ensures every { IfOk result (λ shared. shared.every ≡ every_of has_summary found.now) }
    ensures counts { IfOk result (λ shared. shared.counts ≡ counts_of found.now) }
    ensures only { IfOk result (λ shared. shared.only ≡ read_value (ranges_of LAST_LABEL) (codes "only-label") found.now) }
    ensures every_range { IfOk result (λ shared. IfSome shared.every (λ n. (1 ≤ n) × (n ≤ MOST_EVERY))) }
    ensures only_range { IfOk result (λ shared. IfSome shared.only (AllBelow LABEL_COUNT)) }
{
    let shared = shared_values(alloc, has_summary, found)?;
    if excludes_every(found) {
        return Err(Refusal::Broken(WordsRule::Conflict));
    }
    Ok(shared)
}
