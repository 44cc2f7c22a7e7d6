//! Which word of a segment is wrong, and what is wrong with it.
use crate::fits::{clashes, fits};
use crate::help_table::HelpTable;
use crate::role::{Role, is_dashed, name_part, role_of, stands, value_part};
use crate::said::{Fault, Said};
use crate::segment::{head_of, row_of, words_from};
use crate::shown_option::ShownOption;
use plugin_options::WordsRule;
use std::alloc::{AllocError, Global};

// What is wrong with the form of a word, before these.
fn shape_said<'a>(role: Role<'a>, word: &str, rest: &[String]) -> Option<Said<'a>> {
    let row = match role {
        Role::Unknown => return Some(Said::UnknownOption),
        Role::Extra => return Some(Said::Extra),
        Role::Operand(_) => return None,
        Role::Value(row) => return is_dashed(word).then_some(Said::NoValue(row)),
        Role::Named(row) => row,
    };
    let has_value = name_part(word).len() != word.len();
    if row.is_flag && has_value {
        return Some(Said::TakesNone(row));
    }
    if !row.is_flag && !has_value && rest.is_empty() {
        return Some(Said::NoValue(row));
    }
    stands(row.name.as_str(), rest).then_some(Said::Again(row))
}

// What is wrong with the value that a word is or has.
fn value_said<'a>(
    alloc: Global,
    role: Role<'a>,
    word: &str,
) -> Result<Option<Said<'a>>, AllocError> {
    let (row, value) = match role {
        Role::Value(row) | Role::Operand(row) => (row, word),
        Role::Named(row) if name_part(word).len() != word.len() => (row, value_part(word)),
        _ => return Ok(None),
    };
    let fits = fits(alloc, row.takes, value)?;
    Ok((!fits).then_some(Said::BadValue(row)))
}

// Whether another option of the same choice is among words.
fn other_stands(options: &[ShownOption], row: &ShownOption, words: &[String]) -> bool {
    for other in options {
        if other.choice == row.choice
            && other.name != row.name
            && stands(other.name.as_str(), words)
        {
            return true;
        }
    }
    false
}

// Which of all words a word, before these, does not go with.
fn conflict_said<'a>(
    options: &[ShownOption],
    all: &[String],
    role: Role<'a>,
    word: &str,
    rest: &[String],
) -> Option<Said<'a>> {
    match role {
        Role::Named(row) => {
            if !row.with.is_empty() && !stands(row.with.as_str(), all) {
                return Some(Said::Alone(row));
            }
            let apart = !row.choice.is_empty() && other_stands(options, row, rest);
            apart.then_some(Said::Apart(row))
        }
        Role::Operand(row) => {
            let checked = !stands("--unchecked", all);
            for other in rest {
                if clashes(checked, row.takes, word, other.as_str()) {
                    return Some(Said::Clash(row));
                }
            }
            None
        }
        _ => None,
    }
}

// The first word that is wrong of a segment with these options and operands, which come after a head.
fn first_fault<'a>(
    alloc: Global,
    options: &'a [ShownOption],
    rule: WordsRule,
    all: &[String],
    head: usize,
) -> Result<Option<Fault<'a>>, AllocError> {
    let mut previous = "";
    let mut count = 0usize;
    for (place, word) in words_from(all, head).iter().enumerate() {
        let word = word.as_str();
        let at = head.saturating_add(place);
        let rest = words_from(all, at.saturating_add(1));
        let role = role_of(options, previous, count, word);
        let said = match rule {
            WordsRule::Shape => shape_said(role, word, rest),
            WordsRule::Value => value_said(alloc, role, word)?,
            WordsRule::Conflict => conflict_said(options, all, role, word, rest),
            _ => None,
        };
        if let Some(said) = said {
            return Ok(Some(Fault { at, said }));
        }
        if let Role::Operand(_) = role {
            count = count.saturating_add(1);
        }
        previous = word;
    }
    Ok(None)
}

// Whether the word `--` is among words, after which no word is an option.
fn ends_options(own: &[String]) -> bool {
    for word in own {
        if word.as_str() == "--" {
            return true;
        }
    }
    false
}

// The fault of a segment by its rule alone, where that is not one of its options and operands.
fn fault_of_rule<'a>(rule: WordsRule) -> Option<Fault<'a>> {
    let (at, said) = match rule {
        WordsRule::Twice => (0, Said::Second),
        WordsRule::NoName => (0, Said::NoName),
        WordsRule::UnknownPlugin => (1, Said::UnknownName),
        WordsRule::TooMany => (0, Said::TooMany),
        _ => return None,
    };
    Some(Fault { at, said })
}

/// What is wrong with a segment, and with which word of it; after the last word where no one word is wrong.
pub(crate) fn fault_of<'a>(
    alloc: Global,
    table: &'a HelpTable,
    own: &[String],
    rule: WordsRule,
) -> Result<Fault<'a>, AllocError> {
    if let Some(fault) = fault_of_rule(rule) {
        return Ok(fault);
    }
    if let (Some(row), false) = (row_of(table, own), ends_options(own)) {
        let head = head_of(table, own);
        if let Some(fault) = first_fault(alloc, row.options.as_slice(), rule, own, head)? {
            return Ok(fault);
        }
    }
    let said = match rule {
        WordsRule::Missing => Said::Missing,
        _ => Said::Whole,
    };
    Ok(Fault {
        at: own.len(),
        said,
    })
}
