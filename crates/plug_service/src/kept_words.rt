//! The option `--keep` of `zap`: what is kept beside the services.

ghost use Rattle.std.specs.Prelude.{◌≡◌, MatchResult, codes, false, true};
ghost use Rattle.plugin_options.specs.Forms.{known};
ghost use Rattle.plugin_options.specs.Options.{is_formed};
ghost use Rattle.plugin_options.specs.Refusal.{IsRefusedBy};
ghost use Rattle.plugin_options.specs.WordLists.{are_known};
ghost use Rattle.plugin_options.specs.declared.words_rule.WordsRule.TheVariants.{Value};
ghost use Rattle.plug_service.specs.ZapWords.{is_kept_word, kept_found};

use crate::kept::Kept;
use plugin_options::{ParsedOptions, Refusal, WordsRule};

/// What the words of the option name; nothing where it is not given.
pub(crate) fn read_kept(found: &ParsedOptions) -> Result<Kept, Refusal>
    ensures { MatchResult result
        (λ kept. (is_formed (known (are_known is_kept_word)) (codes "keep") found.now ≡ true) × (kept ≡ kept_found found.now))
        (IsRefusedBy Value (is_formed (known (are_known is_kept_word)) (codes "keep") found.now ≡ false)) }
{
    if !found.are_words("keep", &["nit", "bat", "eit", "time"]) {
        return Err(Refusal::Broken(WordsRule::Value));
    }
    Ok(Kept {
        nit: found.has_word("keep", "nit"),
        bat: found.has_word("keep", "bat"),
        eit: found.has_word("keep", "eit"),
        time: found.has_word("keep", "time"),
    })
}
