//! What is said of a fault, in whole lines.
use crate::bad_value::{form_text, list_text, put_value};
use crate::help_table::HelpTable;
use crate::names::put_names;
use crate::role::value_part;
use crate::said::{Fault, Said};
use crate::segment::{head_of, row_of, word_or_none, words_from};
use crate::segment_row::SegmentRow;
use crate::shown_option::ShownOption;
use crate::unknown::{put_unknown_name, put_unknown_option};
use crate::wanted::put_wanted;
use plugin_options::read_number_within;
use std::alloc::{AllocError, Global};

// Puts how an option or operand is written, and what it means.
fn put_meaning(text: &mut String, row: &ShownOption) -> Result<(), AllocError> {
    write!(text, "{}: {}\n", row.form.as_str(), row.meaning)
}

// Puts what is said of one option.
fn put_option_said(
    alloc: Global,
    text: &mut String,
    said: Said<'_>,
    word: &str,
) -> Result<(), AllocError> {
    match said {
        Said::NoValue(row) => {
            write!(text, "{} needs a value\n", row.name.as_str())?;
            put_meaning(text, row)?;
            text.push_str(form_text(row.takes))
        }
        Said::Again(row) => {
            write!(
                text,
                "{} is given twice\n{}",
                row.name.as_str(),
                list_text(row.takes)
            )
        }
        Said::TakesNone(row) => write!(text, "{} takes no value\n", row.name.as_str()),
        Said::BadValue(row) => {
            put_meaning(text, row)?;
            put_value(alloc, text, row, value_part(word))
        }
        Said::Apart(row) => write!(
            text,
            "only one of these may be given: {}\n",
            row.choice.as_str()
        ),
        Said::Clash(row) => {
            text.push_str("a later pair has the same first or the same second number\n")?;
            put_meaning(text, row)
        }
        Said::Alone(row) => write!(
            text,
            "{} is only allowed with {}\n",
            row.name.as_str(),
            row.with.as_str()
        ),
        _ => Ok(()),
    }
}

// Puts what is said of a segment of the table.
fn put_segment_said(
    alloc: Global,
    text: &mut String,
    table: &HelpTable,
    row: &SegmentRow,
    own: &[String],
    fault: Fault<'_>,
) -> Result<(), AllocError> {
    let word = word_or_none(own, fault.at);
    match fault.said {
        Said::UnknownOption => put_unknown_option(alloc, text, table, row, own, fault.at),
        Said::Extra => {
            write!(text, "no further word is allowed here: {}\n", row.usage)?;
            // A word that is no number may be the name of a file.
            match read_number_within(word, 0, u64::MAX) {
                Some(_) => Ok(()),
                None => text.push_str("a file is named after -I file or -O file\n"),
            }
        }
        Said::Missing => {
            put_wanted(
                text,
                row.options.as_slice(),
                own,
                words_from(own, head_of(table, own)),
            )?;
            write!(text, "usage: {}\n{}\n", row.usage, row.rule)
        }
        Said::Whole => write!(text, "usage: {}\n{}\n", row.usage, row.rule),
        said => put_option_said(alloc, text, said, word),
    }
}

/// Puts what is said of a fault.
pub(crate) fn put_said(
    alloc: Global,
    text: &mut String,
    table: &HelpTable,
    own: &[String],
    fault: Fault<'_>,
) -> Result<(), AllocError> {
    let first = word_or_none(own, 0);
    match fault.said {
        Said::Second => {
            write!(text, "only one {first} is allowed\n")?;
            // Another program has several inputs.
            match first {
                "-I" => text.push_str("tsswitch plays several inputs, one after another\n"),
                _ => Ok(()),
            }
        }
        Said::NoName => {
            write!(text, "a name has to follow {first}, one of:")?;
            put_names(text, table, first)?;
            text.push('\n')
        }
        Said::UnknownName => put_unknown_name(alloc, text, table, own),
        Said::TooMany => text.push_str("a chain has at most 62 plugins\n"),
        _ => {
            match row_of(table, own) {
                Some(row) => put_segment_said(alloc, text, table, row, own, fault),
                None => Ok(()),
            }
        }
    }
}
