//! What is said of a segment in help and where words are refused.
use crate::option_row::OptionRow;

/// What is said of a segment: an input, an output, a plugin, or the general options. No clause rests on it.
#[derive(Clone, Copy)]
pub struct SegmentHelp {
    /// Its first word, as `-P`; of the general options a word of their title.
    pub first: &'static str,
    /// Its name, as `filter`; of the general options the rest of their title.
    pub name: &'static str,
    /// How its words may stand, in one line.
    pub usage: &'static str,
    /// What it does, in a few sentences.
    pub rule: &'static str,
    /// Its options and operands.
    pub options: &'static [OptionRow<'static>],
}
