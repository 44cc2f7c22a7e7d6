//! Words joined by commas.
ghost use Rattle.std.specs.Prelude.{◌≡◌};
ghost use Rattle.std.specs.List.{list_any};
ghost use Rattle.std.specs.Str.{bytes_eq};
ghost use Rattle.plugin_options.specs.WordLists as lists;

use crate::signs::split_at_sign;

/// Whether each part between commas is one of some words.
pub(crate) fn are_known(text: &str, known: &[&str]) -> bool
    ensures { result ≡ lists.are_known (λ word. list_any (λ one. bytes_eq one.now word) known.now) text.now }
{
    match split_at_sign(text, ',') {
        Some((part, others)) => is_one(part, known) && are_known(others, known),
        None => is_one(text, known),
    }
}

/// Whether a word is one of the parts between commas.
pub(crate) fn has_part(text: &str, word: &str) -> bool
    ensures { result ≡ lists.has_part word.now text.now }
{
    match split_at_sign(text, ',') {
        Some((part, others)) => part == word || has_part(others, word),
        None => text == word,
    }
}

/// Whether a word is one of some.
fn is_one(word: &str, known: &[&str]) -> bool
    ensures { result ≡ list_any (λ one. bytes_eq one.now word.now) known.now }
{
    known.iter().any(|one| *one == word)
}
