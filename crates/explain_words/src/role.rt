//! What a word of a segment is.
use crate::shown_option::ShownOption;
use plugin_options::split_at_sign;

/// What a word of a segment is, by the words before it.
#[derive(Clone, Copy)]
pub(crate) enum Role<'a> {
    /// The value of the option before it.
    Value(&'a ShownOption),
    /// An option, by itself or with its value after `=`.
    Named(&'a ShownOption),
    /// It begins with a dash and is no option.
    Unknown,
    /// An operand.
    Operand(&'a ShownOption),
    /// An operand more than the segment takes.
    Extra,
}

/// The name of an option, which ends before `=`.
pub(crate) fn name_part(word: &str) -> &str {
    match split_at_sign(word, '=') {
        Some((name, _)) => name,
        None => word,
    }
}

/// The value of a word, which in an option's own word comes after `=`.
pub(crate) fn value_part(word: &str) -> &str {
    if !is_dashed(word) {
        return word;
    }
    match split_at_sign(word, '=') {
        Some((_, value)) => value,
        None => "",
    }
}

/// Whether a word begins with a dash, and has more after it.
pub(crate) fn is_dashed(word: &str) -> bool {
    word.len() > 1 && word.starts_with('-')
}

/// The option of this name.
pub(crate) fn named<'a>(options: &'a [ShownOption], name: &str) -> Option<&'a ShownOption> {
    for row in options {
        if row.place == 0 && row.name.as_str() == name {
            return Some(row);
        }
    }
    None
}

/// The operand after so many others.
pub(crate) fn operand(options: &[ShownOption], count: usize) -> Option<&ShownOption> {
    for row in options {
        if row.place != 0 && (row.place - 1 == count || (row.many && row.place - 1 <= count)) {
            return Some(row);
        }
    }
    None
}

/// What a word is after another one and so many operands.
pub(crate) fn role_of<'a>(
    options: &'a [ShownOption],
    previous: &str,
    count: usize,
    word: &str,
) -> Role<'a> {
    if let Some(row) = named(options, previous) {
        if !row.is_flag {
            return Role::Value(row);
        }
    }
    if is_dashed(word) {
        match named(options, name_part(word)) {
            Some(row) => Role::Named(row),
            None => Role::Unknown,
        }
    } else {
        match operand(options, count) {
            Some(row) => Role::Operand(row),
            None => Role::Extra,
        }
    }
}

/// Whether the option of a name is among words.
pub(crate) fn stands(name: &str, words: &[String]) -> bool {
    for word in words {
        if name_part(word.as_str()) == name {
            return true;
        }
    }
    false
}
