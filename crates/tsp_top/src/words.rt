//! The report and the status of words that have no plan.
ghost use Rattle.std.specs.Prelude.{◌≡◌, IfOk};
ghost use Rattle.std.specs.String.{string_bytes};
ghost use Rattle.tsp_top.specs.Refusals.{words_line, RefusesWords};

use crate::status::Status;
use chain_args::{WordsFault, WordsRule};
use std::alloc::{AllocError, Global};
use ts_outside::{Desk, say};

/// The line that is reported of a broken rule.
fn words_line_text(alloc: Global, word: usize, rule: WordsRule) -> Result<String, AllocError>
    ensures { IfOk result (λ text. string_bytes text ≡ words_line word rule) }
{
    let said = rule.text();
    format!(in alloc; "tsp: {said} at word {word}\n")
}

/// Reports the broken rule, and returns its status.
pub(crate) fn refuse_words<D: Desk>(
    alloc: Global,
    desk: &mut D,
    word: usize,
    rule: WordsRule,
) -> Status
    ensures { RefusesWords (D.seen desk.old) (D.seen desk.new) word rule result }
{
    match words_line_text(alloc, word, rule) {
        Ok(line) => {
            say(desk, line.as_str());
            Status::Words(WordsFault::At { word, rule })
        }
        Err(AllocError) => Status::NoMemory,
    }
}
