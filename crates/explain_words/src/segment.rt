//! Which words a fault is about.
use crate::help_table::HelpTable;
use crate::segment_row::SegmentRow;

// Whether the word begins a segment.
fn begins(table: &HelpTable, word: &str) -> bool {
    for row in &table.segments {
        if row.first == word {
            return true;
        }
    }
    false
}

/// The words from that number on.
pub(crate) fn words_from(words: &[String], number: usize) -> &[String] {
    words.get(number..).unwrap_or(&[])
}

/// The text of a word, and nothing where there is none.
pub(crate) fn word_or_none(words: &[String], number: usize) -> &str {
    match words.get(number) {
        Some(word) => word.as_str(),
        None => "",
    }
}

/// The words of the segment that these begin with, up to the next one.
pub(crate) fn segment_of<'a>(table: &HelpTable, words: &'a [String]) -> &'a [String] {
    for (number, word) in words.iter().enumerate() {
        if number > 0 && begins(table, word.as_str()) {
            return words.get(..number).unwrap_or(words);
        }
    }
    words
}

/// How many words come before the options and operands: the first word and the name, and none before the general options.
pub(crate) fn head_of(table: &HelpTable, own: &[String]) -> usize {
    if begins(table, word_or_none(own, 0)) {
        2
    } else {
        0
    }
}

/// What is said of the segment of this first word and this name, where there is one.
pub(crate) fn called<'a>(table: &'a HelpTable, first: &str, name: &str) -> Option<&'a SegmentRow> {
    for row in &table.segments {
        if row.first == first && row.name == name {
            return Some(row);
        }
    }
    None
}

/// What is said of the segment of these words, where there is one of its name.
pub(crate) fn row_of<'a>(table: &'a HelpTable, own: &[String]) -> Option<&'a SegmentRow> {
    if head_of(table, own) == 0 {
        return Some(&table.general);
    }
    called(table, word_or_none(own, 0), word_or_none(own, 1))
}
