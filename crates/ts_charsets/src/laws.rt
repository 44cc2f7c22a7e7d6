//! Laws of character tables. The functions run nothing; they are called for what they ensure.

ghost use Rattle.std.specs.Prelude.{◌≡◌, List, ℕ, true, Some};
ghost use Rattle.ts_charsets.specs.Alphabets.{Alphabet};
ghost use Rattle.ts_charsets.specs.AlphabetTexts.{chars_in, bytes_in};
ghost use Rattle.ts_charsets.specs.KnownAlphabets.{alphabet_for};
ghost use Rattle.ts_charsets.specs.SingleSpelling.{spells_once, are_bytes};
ghost use Rattle.ts_charsets.specs.TextTables.{tabled_text, tabled_bytes};
ghost use Rattle.ts_charsets.specs.declared.charset.Charset.{Charset};

/// Bytes that are characters in an alphabet are the bytes of these characters. A law; it runs nothing.
pub fn shown_bytes_are_written()
    ensures { (a : Alphabet) (row cs : List ℕ) → spells_once a ≡ true → are_bytes row ≡ true
        → chars_in a row ≡ Some cs → bytes_in a cs ≡ Some row }
{}

/// In each alphabet every character has one spelling. A law; it runs nothing.
pub fn alphabets_spell_once()
    ensures { (c : Charset) (a : Alphabet) → alphabet_for c ≡ Some a → spells_once a ≡ true }
{}

/// Bytes that are shown as a text in a table are the bytes of this text in this table. A law; it runs nothing.
pub fn tabled_texts_tell_bytes()
    ensures { (row name text : List ℕ) → are_bytes row ≡ true → tabled_text row ≡ Some (name, text)
        → tabled_bytes name text ≡ Some row }
{}
