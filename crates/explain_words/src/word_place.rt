//! What is said of a wrong word where each word has its place.
use crate::marked::marked_words;
use crate::word_row::WordRow;
use std::alloc::{AllocError, Global};
use ts_os::put_shown;

// What may come after this word, where a row says it.
fn said_after<'a>(rows: &'a [WordRow], previous: &str) -> Option<&'a str> {
    for row in rows {
        if row.after == previous {
            return Some(row.said);
        }
    }
    None
}

/// What is said of the words of a command line of which the one of this number, from 0, is wrong, or is missing: the words with a
/// mark below that one, a line that names it, one that says what may be there, where a row has that, and how all words are written.
pub fn words_text(
    alloc: Global,
    rows: &[WordRow],
    words: &[String],
    at: usize,
    usage: &str,
) -> Result<String, AllocError> {
    let mut text = String::new(alloc);
    let mut previous = "";
    for (number, word) in words.iter().enumerate() {
        if number == at {
            text = marked_words(alloc, words, at)?;
            write!(text, "word {at}, counted from 0, is not allowed here: ")?;
            put_shown(&mut text, word.as_str())?;
            text.push('\n')?;
            break;
        }
        previous = word.as_str();
    }
    if text.is_empty() {
        text.push_str("a word is missing after the last one\n")?;
    }
    if let Some(said) = said_after(rows, previous) {
        write!(text, "{said}\n")?;
    }
    write!(text, "usage: {usage}\n")?;
    Ok(text)
}
