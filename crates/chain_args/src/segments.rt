//! Cutting the words of a command line into segments.

ghost use Rattle.std.specs.Prelude.{◌≡◌, ◌+◌, [], length, map};
ghost use Rattle.std.specs.List.{position};
ghost use Rattle.std.specs.String.{string_bytes};
ghost use Rattle.chain_args.specs.Segments.{cut, general_words, is_segment_word, segments};

/// Whether the word begins a segment.
fn begins_segment(word: &str) -> bool
    ensures { result ≡ is_segment_word word.now }
{
    word == "-I" || word == "-P" || word == "-O"
}

/// The index of the first word that begins a segment.
fn first_segment(words: &[String]) -> Option<usize>
    ensures { result ≡ position (λ word. is_segment_word (string_bytes word)) words.now }
{
    words.iter().position(|word| begins_segment(word.as_str()))
}

/// The words before the first segment, and the words from it on.
pub(crate) fn cut_at_segment(words: &[String]) -> (&[String], &[String])
    ensures front { map string_bytes result.0.now ≡ general_words (map string_bytes words.now) }
    ensures rest { cut (map string_bytes result.1.now) ≡ ([], segments (map string_bytes words.now)) }
    ensures count { length result.0.now + length result.1.now ≡ length words.now }
{
    let end = first_segment(words).unwrap_or(words.len());
    words.split_at(end)
}
