//! The character sets of annex A by their names.

ghost use Rattle.std.specs.Prelude.{◌≡◌, Some, option_map};
ghost use Rattle.ts_charsets.specs.Alphabets.{alphabet_of};
ghost use Rattle.ts_charsets.specs.KnownAlphabets;
ghost use Rattle.ts_charsets.specs.declared.charset.Charset.TheVariants.{Latin};

use crate::alphabet::Alphabet;
use crate::char_table::CharTable;
use crate::tables::{
    ACCENTED, ISO_8859_1, ISO_8859_2, ISO_8859_3, ISO_8859_4, ISO_8859_5, ISO_8859_6, ISO_8859_7,
    ISO_8859_8, ISO_8859_9, ISO_8859_10, ISO_8859_11, ISO_8859_13, ISO_8859_14, ISO_8859_15, LATIN,
};

/// A character set of ETSI EN 300 468, annex A.
#[derive(Clone, Copy)]
pub enum Charset {
    /// ISO/IEC 6937 with the euro sign: figure A.1.
    Latin,
    /// ISO/IEC 8859-1, West European.
    Part1,
    /// ISO/IEC 8859-2, East European.
    Part2,
    /// ISO/IEC 8859-3, South European.
    Part3,
    /// ISO/IEC 8859-4, North and North-East European.
    Part4,
    /// ISO/IEC 8859-5, Latin and Cyrillic.
    Part5,
    /// ISO/IEC 8859-6, Latin and Arabic.
    Part6,
    /// ISO/IEC 8859-7, Latin and Greek.
    Part7,
    /// ISO/IEC 8859-8, Latin and Hebrew.
    Part8,
    /// ISO/IEC 8859-9, West European and Turkish.
    Part9,
    /// ISO/IEC 8859-10, North European.
    Part10,
    /// ISO/IEC 8859-11, Thai.
    Part11,
    /// ISO/IEC 8859-13, Baltic.
    Part13,
    /// ISO/IEC 8859-14, Celtic.
    Part14,
    /// ISO/IEC 8859-15, West European.
    Part15,
    /// ISO/IEC 10646 in two bytes a character, the high one first.
    Utf16,
    /// ISO/IEC 10646 in UTF-8.
    Utf8,
}

/// The alphabet of a character set; `None` for UTF-8, whose texts are the texts of the programs.
pub fn alphabet_for(charset: Charset) -> Option<Alphabet<'static>>
    ensures { option_map alphabet_of result ≡ KnownAlphabets.alphabet_for charset }
{
    match charset {
        Charset::Latin => Some(latin()),
        Charset::Part1 => Some(plain(&ISO_8859_1)),
        Charset::Part2 => Some(plain(&ISO_8859_2)),
        Charset::Part3 => Some(plain(&ISO_8859_3)),
        Charset::Part4 => Some(plain(&ISO_8859_4)),
        Charset::Part5 => Some(plain(&ISO_8859_5)),
        Charset::Part6 => Some(plain(&ISO_8859_6)),
        Charset::Part7 => Some(plain(&ISO_8859_7)),
        Charset::Part8 => Some(plain(&ISO_8859_8)),
        Charset::Part9 => Some(plain(&ISO_8859_9)),
        Charset::Part10 => Some(plain(&ISO_8859_10)),
        Charset::Part11 => Some(plain(&ISO_8859_11)),
        Charset::Part13 => Some(plain(&ISO_8859_13)),
        Charset::Part14 => Some(plain(&ISO_8859_14)),
        Charset::Part15 => Some(plain(&ISO_8859_15)),
        Charset::Utf16 => Some(Alphabet::Double),
        Charset::Utf8 => None,
    }
}

// ISO/IEC 6937 with the euro sign.
fn latin() -> Alphabet<'static>
    ensures { Some (alphabet_of result) ≡ KnownAlphabets.alphabet_for Latin }
{
    Alphabet::Single(CharTable {
        upper: &LATIN,
        accented: &ACCENTED,
    })
}

// A table without accented letters of two bytes.
fn plain(upper: &[char; 96]) -> Alphabet<'_>
    ensures { Some (alphabet_of result) ≡ KnownAlphabets.plain upper.now }
{
    Alphabet::Single(CharTable {
        upper,
        accented: &[],
    })
}
