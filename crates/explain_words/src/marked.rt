//! The words of a segment in one line, and a line below that marks one of them.
use std::alloc::{AllocError, Global};
use ts_os::put_shown;

// A word as it is seen: an empty one as two quotation marks.
fn visible(word: &str) -> &str {
    if word.is_empty() { "\"\"" } else { word }
}

/// Puts a word after a text and a space.
pub(crate) fn put_word(text: &mut String, word: &str) -> Result<(), AllocError> {
    text.push(' ')?;
    put_shown(text, visible(word))
}

// Puts a space, and a sign below each character of a word.
fn put_below(text: &mut String, sign: char, word: &str) -> Result<(), AllocError> {
    text.push(' ')?;
    for _character in visible(word).chars() {
        text.push(sign)?;
    }
    Ok(())
}

/// Words in one line, and below them a line that marks the one of this number, where there is one.
pub(crate) fn marked_words(alloc: Global, own: &[String], at: usize) -> Result<String, AllocError> {
    let mut text = String::from_str(alloc, "   ")?;
    for word in own {
        put_word(&mut text, word.as_str())?;
    }
    text.push('\n')?;
    if at >= own.len() {
        return Ok(text);
    }
    text.push_str("   ")?;
    for (number, word) in own.iter().enumerate() {
        if number < at {
            put_below(&mut text, ' ', word.as_str())?;
        }
        if number == at {
            put_below(&mut text, '^', word.as_str())?;
        }
    }
    text.push('\n')?;
    Ok(text)
}
