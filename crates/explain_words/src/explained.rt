//! The lines that a refused command line is shown.
use crate::first_fault::fault_of;
use crate::help_table::HelpTable;
use crate::marked::marked_words;
use crate::said_text::put_said;
use crate::segment::{segment_of, words_from};
use plugin_options::WordsRule;
use std::alloc::{AllocError, Global};

/// What a refused command line is shown: the words of the segment that breaks a rule, a mark below the one that is wrong, and
/// what may be there. `at` is the number of the segment's first word, from 0, and the words are given without the
/// program's name. An `AllocError` leaves nothing.
pub fn fault_text(
    alloc: Global,
    table: &HelpTable,
    words: &[String],
    at: usize,
    rule: WordsRule,
) -> Result<String, AllocError> {
    let own = segment_of(table, words_from(words, at));
    let fault = fault_of(alloc, table, own, rule)?;
    let mut text = marked_words(alloc, own, fault.at)?;
    put_said(alloc, &mut text, table, own, fault)?;
    Ok(text)
}
