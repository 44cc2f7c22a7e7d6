//! Command lines in which each word has its place, with one that is wrong or missing.
use explain_words::WordRow;

/// How the words may stand.
pub(crate) const USAGE: &str = "[--cycle N] -I file NAME";

/// What may come after a word.
pub(crate) fn may_stand() -> &'static [WordRow] {
    static ROWS: [WordRow; 2] = [
        WordRow {
            after: "",
            said: "the first word is --cycle or -I",
        },
        WordRow {
            after: "--cycle",
            said: "--cycle N: 1 to 1000",
        },
    ];
    &ROWS
}

/// A command line, how it differs from others, and the number of its wrong word.
pub(crate) struct PlaceRow {
    pub(crate) about: &'static str,
    pub(crate) words: &'static str,
    pub(crate) at: usize,
}

/// The rows.
pub(crate) fn place_rows() -> &'static [PlaceRow] {
    static ROWS: [PlaceRow; 5] = [
        PlaceRow {
            about: "--cycle 0 -I file a",
            words: "--cycle 0 -I file a",
            at: 1,
        },
        PlaceRow {
            about: "--cycled",
            words: "--cycled",
            at: 0,
        },
        PlaceRow {
            about: "--cycle",
            words: "--cycle",
            at: 1,
        },
        PlaceRow {
            about: "-I file a b",
            words: "-I file a b",
            at: 3,
        },
        PlaceRow {
            about: "(a control character)",
            words: "\u{1b}[31m",
            at: 0,
        },
    ];
    &ROWS
}
