//! Options that editors have in common.

ghost use Rattle.std.specs.Prelude.{◌≡◌, ◌<◌, ◌+◌, IfOk, MatchResult, false, true};
ghost use Rattle.std.specs.Option.{ForSome};
ghost use Rattle.plugin_options.specs.Forms.{number};
ghost use Rattle.plugin_options.specs.Options.{is_formed};
ghost use Rattle.plugin_options.specs.Refusal.{IsRefusedBy};
ghost use Rattle.plugin_options.specs.declared.words_rule.WordsRule.TheVariants.{Value};
ghost use Rattle.plug_edit.specs.EditWords.{number_found};

use plugin_options::{ParsedOptions, Refusal};

/// The number of an option, from 0 to `most`, if it is given.
pub fn number_up_to(found: &ParsedOptions, name: &str, most: u64) -> Result<Option<u64>, Refusal>
    ensures reads { MatchResult result
        (λ n. (is_formed (number 0 most) name.now found.now ≡ true)
        × (n ≡ number_found name.now most found.now))
        (IsRefusedBy Value (is_formed (number 0 most) name.now found.now ≡ false)) }
    ensures range { IfOk result (λ n. ForSome n (λ k. k < most + 1)) }
{
    found.number(name, 0, most)
}
