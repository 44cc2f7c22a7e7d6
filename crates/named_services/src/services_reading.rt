//! Words of services from the operands of a command line.

ghost use Rattle.std.specs.Prelude.{◌≡◌, MatchResult, false, map, true};
ghost use Rattle.std.specs.List.{list_all};
ghost use Rattle.plugin_options.specs.Refusal.{IsRefusedBy};
ghost use Rattle.plugin_options.specs.ServiceTexts.{is_service};
ghost use Rattle.plugin_options.specs.declared.words_rule.WordsRule.TheVariants.{Value};
ghost use Rattle.named_services.specs.ServiceWords.{words_of};

use crate::word_list::ServiceWords;
use crate::word_reading::read_service;
use plugin_options::{Refusal, WordsRule};
use std::alloc::Global;

/// The words that texts are, each once; `Value` is broken where one of them is none.
pub fn read_services(alloc: Global, texts: &[&str]) -> Result<ServiceWords, Refusal>
    ensures { MatchResult result
        (λ words. (list_all is_service (map (λ text. text.now) texts.now) ≡ true)
        × (words ≡ words_of (map (λ text. text.now) texts.now)))
        (IsRefusedBy Value (list_all is_service (map (λ text. text.now) texts.now) ≡ false)) }
{
    let mut words = ServiceWords::none(alloc);
    for text in texts {
        let read = read_service(alloc, text)?;
        let Some(word) = read else {
            return Err(Refusal::Broken(WordsRule::Value));
        };
        words.add(word)?;
    }
    Ok(words)
}
