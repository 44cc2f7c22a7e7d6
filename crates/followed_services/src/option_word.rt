//! The word of a service among the options of a command line.

ghost use Rattle.std.specs.Prelude.{◌≡◌, IfOk, IfSome, MatchResult, false, is_some, true};
ghost use Rattle.plugin_options.specs.Forms.{known};
ghost use Rattle.plugin_options.specs.Options.{has_value, is_formed, read_value};
ghost use Rattle.plugin_options.specs.Refusal.{IsRefusedBy};
ghost use Rattle.plugin_options.specs.ServiceTexts.{is_service};
ghost use Rattle.plugin_options.specs.declared.words_rule.WordsRule.TheVariants.{Value};
ghost use Rattle.named_services.specs.ServiceWords.{SaysService, word_of};

use named_services::{ServiceWord, read_service};
use plugin_options::{ParsedOptions, Refusal, WordsRule};
use std::alloc::Global;

/// The service of an option or of an operand, by its number or its name; none where it is not given.
pub fn service_option(
    alloc: Global,
    found: &ParsedOptions,
    name: &str,
) -> Result<Option<ServiceWord>, Refusal>
    ensures reads { MatchResult result
        (λ word. (is_formed (known is_service) name.now found.now ≡ true) × (word ≡ read_value word_of name.now found.now))
        (IsRefusedBy Value (is_formed (known is_service) name.now found.now ≡ false)) }
    ensures says { IfOk result (λ word. IfSome word SaysService) }
    ensures given { IfOk result (λ word. is_some word ≡ has_value name.now found.now) }
{
    let Some(text) = found.value(name) else {
        return Ok(None);
    };
    match read_service(alloc, text)? {
        Some(word) => Ok(Some(word)),
        None => Err(Refusal::Broken(WordsRule::Value)),
    }
}
