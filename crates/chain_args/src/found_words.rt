//! What the options of a segment find in its words.

ghost use Rattle.std.specs.Prelude.{◌≡◌, MatchResult, false, map, true};
ghost use Rattle.std.specs.String.{string_bytes};
ghost use Rattle.clap.specs.Faults.{is_simple_and_free};
ghost use Rattle.plugin_options.specs.OptionWords.{rows_of_options};
ghost use Rattle.plugin_options.specs.Options.{command_of, findings, is_taken};
ghost use Rattle.plugin_options.specs.Refusal.{IsRefusedBy};
ghost use Rattle.plugin_options.specs.declared.words_rule.WordsRule.TheVariants.{Shape};

use plugin_options::{OptionRow, ParsedOptions, Refusal, command_with};
use std::alloc::Global;

/// What the command of these options finds in the words; the rule `Shape` is broken exactly where it does not take
/// them. No reader of a segment has to hold the command, which is a large value.
pub(crate) fn found_words<'a>(
    alloc: Global,
    options: &[OptionRow<'a>],
    words: &'a [String],
) -> Result<ParsedOptions<'a>, Refusal>
    requires { is_simple_and_free (command_of (rows_of_options options.now)) ≡ true }
    ensures { MatchResult result
        (λ found. (is_taken (command_of (rows_of_options options.entry.now)) (map string_bytes words.entry.now) ≡ true)
        × (found ≡ findings (command_of (rows_of_options options.entry.now)) (map string_bytes words.entry.now)))
        (IsRefusedBy Shape (is_taken (command_of (rows_of_options options.entry.now)) (map string_bytes words.entry.now)
        ≡ false)) }
{
    ParsedOptions::of(command_with(alloc, options)?, words)
}
