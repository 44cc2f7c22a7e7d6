//! An option of a command, and what it takes.
use crate::takes::Takes;

/// The name of an option or of an operand, by what it is, with what it takes.
#[derive(Clone, Copy)]
pub enum OptionWord<'a> {
    /// A flag `--name`, without a value.
    Flag(&'a str),
    /// An option `--name value`.
    Value(&'a str, Takes),
    /// One operand.
    Operand(&'a str, Takes),
    /// Operands, of which there may be any number.
    Operands(&'a str, Takes),
}
