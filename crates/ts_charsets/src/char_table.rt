//! A character table, and what one byte or one character is in it.

ghost use Rattle.std.specs.Prelude.{◌≡◌, ◌<◌, nat_eq, option_map, IfSome};
ghost use Rattle.std.specs.List.{position};
ghost use Rattle.ts_charsets.specs.CharTables;
ghost use Rattle.ts_charsets.specs.CharTables.{table_of};

/// Two bytes that are one character: an accent and the letter under it.
#[derive(Clone, Copy)]
pub struct AccentedLetter {
    /// The byte of the accent, which comes first.
    pub accent: u8,
    /// The byte of the letter.
    pub letter: u8,
    /// The character.
    pub shown: char,
}

/// A character table: one byte a character, and pairs of an accent and a letter (ETSI EN 300 468, annex A).
#[derive(Clone, Copy)]
pub struct CharTable<'a> {
    /// The characters at the bytes 0xA0 to 0xFF; NUL where there is none.
    pub upper: &'a [char; 96],
    /// The accented letters; no accent has a character of its own.
    pub accented: &'a [AccentedLetter],
}

/// The character of a byte; NUL where it has none.
pub(crate) fn char_of(table: CharTable, byte: u8) -> char
    ensures { result ≡ CharTables.char_of (table_of table.entry) byte }
{
    if byte < 0x20 {
        '\0'
    } else if byte < 0x7F {
        char::from(byte)
    } else if byte == 0x86 {
        '\u{E086}'
    } else if byte == 0x87 {
        '\u{E087}'
    } else if byte == 0x8A {
        '\n'
    } else if byte < 0xA0 {
        '\0'
    } else {
        table.upper[usize::from(byte) - 0xA0]
    }
}

/// The accented letter of two bytes.
pub(crate) fn letter_of<'a>(
    table: CharTable<'a>,
    accent: u8,
    letter: u8,
) -> Option<&'a AccentedLetter>
    ensures { option_map (λ a. a.now) result ≡ CharTables.letter_of (table_of table.entry) accent letter }
{
    let accented = table.accented;
    accented
        .iter()
        .find(|row| row.accent == accent && row.letter == letter)
}

/// The place of a character among those from 0xA0 on.
fn place_of(table: CharTable, character: char) -> Option<usize>
    ensures place { result ≡ position (λ d. nat_eq d character) table.entry.upper.now }
    ensures inside { IfSome result (λ i. i < 96) }
{
    let upper = table.upper;
    upper.iter().position(|shown| *shown == character)
}

/// The byte of a character.
pub(crate) fn byte_of(table: CharTable, character: char) -> Option<u8>
    ensures { result ≡ CharTables.byte_of (table_of table.entry) character }
{
    if character == '\0' {
        None
    } else if character == '\n' {
        Some(0x8A)
    } else if character < ' ' {
        None
    } else if character < '\u{7F}' {
        Some(character as u8)
    } else if character == '\u{E086}' {
        Some(0x86)
    } else if character == '\u{E087}' {
        Some(0x87)
    } else {
        place_of(table, character).map(|place| 0xA0 + place as u8)
    }
}

/// The accented letter that is a character.
pub(crate) fn accented_char<'a>(table: CharTable<'a>, character: char) -> Option<&'a AccentedLetter>
    ensures { option_map (λ a. a.now) result ≡ CharTables.accented_char (table_of table.entry) character }
{
    let accented = table.accented;
    accented.iter().find(|row| row.shown == character)
}
