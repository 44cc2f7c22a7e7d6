//! The option `--threads`: how many threads serve the stages of a chain.

ghost use Rattle.std.specs.Prelude.{◌≡◌, MatchResult, codes, false, is_some, true, unwrap_or};
ghost use Rattle.chain_args.specs.General.{is_threads, threads_named};
ghost use Rattle.chain_args.specs.declared.stage_threads.StageThreads.TheVariants.{Auto};
ghost use Rattle.plugin_options.specs.Forms.{known};
ghost use Rattle.plugin_options.specs.Options.{is_formed, read_value};
ghost use Rattle.plugin_options.specs.Refusal.{IsRefusedBy};
ghost use Rattle.plugin_options.specs.declared.words_rule.WordsRule.TheVariants.{Value};

use crate::stage_threads::StageThreads;
use plugin_options::{ParsedOptions, Refusal, WordsRule};

/// The threads of this word; `None` where it is none of the option's words.
fn threads_of(word: &str) -> Option<StageThreads>
    ensures named { result ≡ threads_named word.now }
    ensures known { is_some result ≡ is_threads word.now }
{
    match word {
        "1" => Some(StageThreads::One),
        "auto" => Some(StageThreads::Auto),
        _ => None,
    }
}

/// The threads that the option names; the program's choice where it is not given.
pub(crate) fn read_threads(found: &ParsedOptions) -> Result<StageThreads, Refusal>
    ensures { MatchResult result
        (λ threads. (is_formed (known is_threads) (codes "threads") found.now ≡ true)
        × (threads ≡ unwrap_or (read_value threads_named (codes "threads") found.now) Auto))
        (IsRefusedBy Value (is_formed (known is_threads) (codes "threads") found.now ≡ false)) }
{
    let Some(word) = found.value("threads") else {
        return Ok(StageThreads::Auto);
    };
    match threads_of(word) {
        Some(threads) => Ok(threads),
        None => Err(Refusal::Broken(WordsRule::Value)),
    }
}
