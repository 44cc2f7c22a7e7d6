//! What a segment needs.
use crate::role::{Role, role_of, stands};
use crate::shown_option::ShownOption;
use plugin_options::Need;
use std::alloc::AllocError;

// How many operands are among words; each word after `--` is one.
fn operands_in(options: &[ShownOption], words: &[String]) -> usize {
    let mut previous = "";
    let mut count = 0usize;
    let mut left = words.len();
    for word in words {
        left = left.saturating_sub(1);
        let word = word.as_str();
        if word == "--" {
            return count.saturating_add(left);
        }
        if let Role::Operand(_) = role_of(options, previous, count, word) {
            count = count.saturating_add(1);
        }
        previous = word;
    }
    count
}

// Whether an option of the same choice is given.
fn choice_stands(options: &[ShownOption], row: &ShownOption, own: &[String]) -> bool {
    for other in options {
        if other.choice == row.choice && stands(other.name.as_str(), own) {
            return !row.choice.is_empty();
        }
    }
    false
}

// Puts a line for each option and operand that the segment has to have and does not have.
fn put_needed(
    text: &mut String,
    options: &[ShownOption],
    count: usize,
    own: &[String],
) -> Result<(), AllocError> {
    for row in options {
        let is_there = if row.place == 0 {
            stands(row.name.as_str(), own)
        } else {
            row.place <= count
        };
        if row.need == Need::Required && !is_there && !choice_stands(options, row, own) {
            write!(text, "needed: {}: {}\n", row.form.as_str(), row.meaning)?;
        }
    }
    Ok(())
}

// Puts a line with the options of which one has to be given and none is.
fn put_group(text: &mut String, options: &[ShownOption], own: &[String]) -> Result<(), AllocError> {
    let mut has_group = false;
    for row in options {
        if row.need == Need::OneOf {
            has_group = true;
            if stands(row.name.as_str(), own) {
                return Ok(());
            }
        }
    }
    if !has_group {
        return Ok(());
    }
    text.push_str("needed: at least one of:")?;
    for row in options {
        if row.need == Need::OneOf {
            write!(text, " {}", row.name.as_str())?;
        }
    }
    text.push('\n')
}

/// Puts a line for what the segment has to have and does not; the last ones of its words are options and operands.
pub(crate) fn put_wanted(
    text: &mut String,
    options: &[ShownOption],
    own: &[String],
    words: &[String],
) -> Result<(), AllocError> {
    put_needed(text, options, operands_in(options, words), own)?;
    put_group(text, options, own)
}
