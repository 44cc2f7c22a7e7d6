//! Names of the table: those that there are, the one that is nearest to a word, and where else a word is known.
use crate::help_table::HelpTable;
use crate::role::{name_part, named};
use crate::segment_row::SegmentRow;
use crate::shown_option::ShownOption;
use std::alloc::{AllocError, Global};
use strsim::levenshtein;

/// Puts the names that there are after a first word.
pub(crate) fn put_names(
    text: &mut String,
    table: &HelpTable,
    first: &str,
) -> Result<(), AllocError> {
    for row in &table.segments {
        if row.first == first {
            write!(text, " {}", row.name)?;
        }
    }
    Ok(())
}

/// Puts the names of options, and that there are none where it is so.
pub(crate) fn put_options(text: &mut String, options: &[ShownOption]) -> Result<(), AllocError> {
    let before = text.len();
    for row in options {
        if row.place == 0 {
            write!(text, " {}", row.name.as_str())?;
        }
    }
    if text.len() == before {
        text.push_str(" none")?;
    }
    Ok(())
}

// Whether the segment has this name, or an option of this name.
fn has_word(row: &SegmentRow, word: &str) -> bool {
    row.name == word || named(row.options.as_slice(), name_part(word)).is_some()
}

/// Puts one line with the segments that have this name or this option, where there is one.
pub(crate) fn put_homes(
    alloc: Global,
    text: &mut String,
    table: &HelpTable,
    word: &str,
) -> Result<(), AllocError> {
    let mut homes = String::new(alloc);
    let general = &table.general;
    if has_word(general, word) {
        write!(homes, " {} {}", general.first, general.name)?;
    }
    for row in &table.segments {
        if has_word(row, word) {
            write!(homes, " {} {}", row.first, row.name)?;
        }
    }
    if !homes.is_empty() {
        write!(text, "it belongs to:{homes}\n")?;
    }
    Ok(())
}

// Puts a line with a name; nothing where there is none.
fn put_near(text: &mut String, name: &str) -> Result<(), AllocError> {
    if !name.is_empty() {
        write!(text, "did you mean {name}?\n")?;
    }
    Ok(())
}

/// Puts a line with the option that is nearest to a word, where at most half of the word changes. One that ends as the word does
/// after its first character is nearer by half.
pub(crate) fn put_near_option(
    alloc: Global,
    text: &mut String,
    options: &[ShownOption],
    word: &str,
) -> Result<(), AllocError> {
    let ending = word.as_bytes().get(1..).unwrap_or(&[]);
    let mut least = word.len() / 2 + 1;
    let mut name = "";
    for row in options {
        let mut changes = levenshtein(alloc, word, row.name.as_str())?;
        if row.name.as_bytes().ends_with(ending) {
            changes /= 2;
        }
        if changes < least {
            least = changes;
            name = row.name.as_str();
        }
    }
    put_near(text, name)
}

/// Puts a line with the name after a first word that is nearest to a word, where at most half of the word changes.
pub(crate) fn put_near_name(
    alloc: Global,
    text: &mut String,
    segments: &[SegmentRow],
    first: &str,
    word: &str,
) -> Result<(), AllocError> {
    let mut least = word.len() / 2 + 1;
    let mut name = "";
    for row in segments {
        if row.first != first {
            continue;
        }
        let changes = levenshtein(alloc, word, row.name)?;
        if changes < least {
            least = changes;
            name = row.name;
        }
    }
    put_near(text, name)
}
