//! What can be wrong with a segment.
use crate::shown_option::ShownOption;

/// What is wrong with a segment or with one word of it.
#[derive(Clone, Copy)]
pub(crate) enum Said<'a> {
    /// Only one segment of its kind may be given.
    Second,
    /// A name is needed after the first word.
    NoName,
    /// There is no segment of this name.
    UnknownName,
    /// No further plugin may be given.
    TooMany,
    /// The word is an unknown option of the segment.
    UnknownOption,
    /// The word is an operand more than the segment takes.
    Extra,
    /// The option's value is wanting.
    NoValue(&'a ShownOption),
    /// The option is given again after it.
    Again(&'a ShownOption),
    /// The option is a flag, and the word gives it a value.
    TakesNone(&'a ShownOption),
    /// The value is none that the option or operand takes.
    BadValue(&'a ShownOption),
    /// Another option is given of those of which one alone may be given.
    Apart(&'a ShownOption),
    /// A pair that a later one has a number in common with.
    Clash(&'a ShownOption),
    /// The option is given without the one that it needs.
    Alone(&'a ShownOption),
    /// Something is wanting.
    Missing,
    /// No one word can be named.
    Whole,
}

/// What is wrong, with the number of the word that is marked; none is marked where there is no such word.
#[derive(Clone, Copy)]
pub(crate) struct Fault<'a> {
    pub(crate) at: usize,
    pub(crate) said: Said<'a>,
}
