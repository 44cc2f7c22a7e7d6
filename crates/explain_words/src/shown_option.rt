//! An option or operand as it is shown.
use plugin_options::{Beside, Need, OptionRow, OptionWord, Takes};
use std::alloc::{AllocError, Global};

/// What is said of one option or operand of a segment.
#[derive(Drop)]
pub struct ShownOption {
    /// The option as it is written, with its dashes; of an operand nothing.
    pub name: String,
    /// How it is written with what it takes, as `--pid LIST`.
    pub form: String,
    /// What it means, with its range at the beginning.
    pub meaning: &'static str,
    /// It is a flag, and takes nothing.
    pub is_flag: bool,
    /// What it takes; any text where it is a flag.
    pub takes: Takes,
    /// Which operand it is, from 1 on; 0 for an option.
    pub place: usize,
    /// All operands from that place on are like it.
    pub many: bool,
    /// Whether it has to be given.
    pub need: Need,
    /// Options of which one alone may be given, all in one text; nothing where any may be given with it.
    pub choice: String,
    /// The option without which it does not go; nothing where it goes alone.
    pub with: String,
}

// Puts an option with what it takes.
fn put_form(text: &mut String, row: &OptionRow<'static>) -> Result<(), AllocError> {
    let value = row.text.value;
    match row.word {
        OptionWord::Flag(name) => write!(text, "--{name}"),
        OptionWord::Value(name, _) => write!(text, "--{name} {value}"),
        OptionWord::Operand(_, _) => text.push_str(value),
        OptionWord::Operands(_, _) => write!(text, "{value} .."),
    }
}

// The same with a least number, which is 0 where there is none.
fn from_a_least(takes: Takes) -> Takes {
    match takes {
        Takes::Ranges(most) => Takes::RangesFrom(0, most),
        other => other,
    }
}

// The options of the choice with this number, in one text.
fn choice_text(
    alloc: Global,
    rows: &[OptionRow<'static>],
    number: u8,
) -> Result<String, AllocError> {
    let mut text = String::new(alloc);
    for row in rows {
        let is_one = match row.text.beside {
            Beside::Choice(other) => other == number,
            _ => false,
        };
        if is_one {
            if !text.is_empty() {
                text.push_str(" | ")?;
            }
            put_form(&mut text, row)?;
        }
    }
    Ok(text)
}

/// An option of these rows as it is shown. Before it there were so many operands.
pub(crate) fn shown_option(
    alloc: Global,
    rows: &[OptionRow<'static>],
    row: &OptionRow<'static>,
    operands: usize,
) -> Result<ShownOption, AllocError> {
    let (dashes, name, takes, place) = match row.word {
        OptionWord::Flag(name) => ("--", name, Takes::Text, 0),
        OptionWord::Value(name, takes) => ("--", name, takes, 0),
        OptionWord::Operand(_, takes) | OptionWord::Operands(_, takes) => {
            ("", "", takes, operands.saturating_add(1))
        }
    };
    let (choice, dash, with) = match row.text.beside {
        Beside::Any => (String::new(alloc), "", ""),
        Beside::Choice(number) => (choice_text(alloc, rows, number)?, "", ""),
        Beside::With(name) => (String::new(alloc), "--", name),
    };
    let mut form = String::new(alloc);
    put_form(&mut form, row)?;
    let (is_flag, many) = match row.word {
        OptionWord::Flag(_) => (true, false),
        OptionWord::Operands(_, _) => (false, true),
        _ => (false, false),
    };
    Ok(ShownOption {
        name: format!(in alloc; "{dashes}{name}")?,
        form,
        meaning: row.text.meaning,
        is_flag,
        takes: from_a_least(takes),
        place,
        many,
        need: row.text.need,
        choice,
        with: format!(in alloc; "{dash}{with}")?,
    })
}
