//! A row of a table of options: an option with what is said of it.
use crate::option_word::OptionWord;

/// Whether an option has to be given.
#[derive(Clone, Copy, PartialEq, Eq)]
pub enum Need {
    /// It may be left out.
    Free,
    /// It is required; where it is one of a choice, one of these is.
    Required,
    /// It is one of those of which at least one is required.
    OneOf,
}

/// Which options may be given beside an option.
#[derive(Clone, Copy)]
pub enum Beside {
    /// Any others.
    Any,
    /// None other with this number: of these one alone may be given.
    Choice(u8),
    /// It goes with the option of this name alone.
    With(&'static str),
}

/// What is said of an option in help and where words are refused. No clause rests on it.
#[derive(Clone, Copy)]
pub struct OptionText {
    /// What stands for its value, as `LIST`; of an operand its name there; nothing for a flag.
    pub value: &'static str,
    /// What it means, with its range at the beginning.
    pub meaning: &'static str,
    /// Whether it has to be given.
    pub need: Need,
    /// What may be given beside it.
    pub beside: Beside,
}

/// A row of a table of options.
#[derive(Clone, Copy)]
pub struct OptionRow<'a> {
    pub word: OptionWord<'a>,
    pub text: OptionText,
}
