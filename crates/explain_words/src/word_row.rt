//! What may come after a word of a command line.

/// What may come after one word, in one line.
#[derive(Clone, Copy)]
pub struct WordRow {
    /// The word before; nothing for the first word.
    pub after: &'static str,
    /// What may be there.
    pub said: &'static str,
}
