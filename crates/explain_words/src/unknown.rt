//! What is said of an unknown name and of an unknown option.
use crate::help_table::HelpTable;
use crate::marked::put_word;
use crate::names::{put_homes, put_names, put_near_name, put_near_option, put_options};
use crate::role::{name_part, operand};
use crate::segment::{called, head_of, word_or_none};
use crate::segment_row::SegmentRow;
use plugin_options::split_at_sign;
use std::alloc::{AllocError, Global};

// How packets come from a network and go to one.
fn network_text(first: &str) -> &'static str {
    match first {
        "-I" => "datagrams come through a pipe: socat -u UDP4-RECV:PORT - | tsp .., without -I\n",
        "-O" =>
            "datagrams go through a pipe: tsp .. | socat -u -b 1316 - UDP4-DATAGRAM:ADDRESS:PORT\n",
        _ => "",
    }
}

// Puts how words that are one have to be given, where that is so.
fn put_apart(
    text: &mut String,
    table: &HelpTable,
    first: &str,
    name: &str,
) -> Result<(), AllocError> {
    let Some((known, _)) = split_at_sign(name, ' ') else {
        return Ok(());
    };
    if called(table, first, known).is_some() {
        text.push_str("each word is given by itself:")?;
        put_word(text, first)?;
        put_word(text, name)?;
        text.push('\n')?;
    }
    Ok(())
}

/// Puts the name that is nearest to an unknown one, with those that there are, and where else it is known; and how words that are
/// one have to be given.
pub(crate) fn put_unknown_name(
    alloc: Global,
    text: &mut String,
    table: &HelpTable,
    own: &[String],
) -> Result<(), AllocError> {
    let first = word_or_none(own, 0);
    let name = word_or_none(own, 1);
    put_near_name(alloc, text, table.segments.as_slice(), first, name)?;
    write!(text, "unknown name after {first}; there are:")?;
    put_names(text, table, first)?;
    text.push('\n')?;
    text.push_str(match name {
        "udp" | "ip" => network_text(first),
        _ => "a file is named after -I file or -O file\n",
    })?;
    put_homes(alloc, text, table, name)?;
    put_apart(text, table, first, name)
}

// The first word of a segment that is written with a small letter; nothing for other words.
fn with_capital(word: &str) -> &'static str {
    match word {
        "-i" => "-I",
        "-o" => "-O",
        "-p" => "-P",
        _ => "",
    }
}

// Whether a digit comes after the first character.
fn is_negative(word: &str) -> bool {
    match word.as_bytes().get(1) {
        Some(digit) => digit.is_ascii_digit(),
        None => false,
    }
}

/// Puts the option that is nearest to an unknown one, the word of this number, with those that there are, and where else it is
/// known; and what is said of an operand that it may be, of a number below 0, and of a segment's first word.
pub(crate) fn put_unknown_option(
    alloc: Global,
    text: &mut String,
    table: &HelpTable,
    row: &SegmentRow,
    own: &[String],
    at: usize,
) -> Result<(), AllocError> {
    let word = word_or_none(own, at);
    put_near_option(alloc, text, row.options.as_slice(), name_part(word))?;
    write!(
        text,
        "unknown option of {} {}; there are:",
        row.first, row.name
    )?;
    put_options(text, row.options.as_slice())?;
    write!(text, "\nusage: {}\n", row.usage)?;
    put_homes(alloc, text, table, word)?;
    let capital = with_capital(word);
    if called(table, capital, word_or_none(own, at.saturating_add(1))).is_some() {
        write!(text, "{capital} is written with a capital letter\n")?;
    }
    if at == head_of(table, own) {
        if let Some(first) = operand(row.options.as_slice(), 0) {
            write!(
                text,
                "{} is given without an option: {}\n",
                first.form.as_str(),
                first.meaning
            )?;
        }
    }
    if is_negative(word) {
        text.push_str("no operand begins with -\n")?;
    }
    Ok(())
}
