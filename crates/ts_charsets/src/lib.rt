//! Texts of descriptors in the character tables of ETSI EN 300 468, annex A. Bytes come in and a text goes out, or a
//! text and bytes; the layer above uses `tabled_text` and `bytes_by_table`, and the law `tabled_texts_tell_bytes`.
#![tactic(auto)]

mod alphabet;
mod char_table;
mod charset;
mod decoding;
mod encoding;
mod laws;
mod shown;
mod tabled;
mod tables;
mod text_table;

pub use alphabet::Alphabet;
pub use char_table::{AccentedLetter, CharTable};
pub use charset::{Charset, alphabet_for};
pub use decoding::text_in;
pub use encoding::bytes_in;
pub use laws::{alphabets_spell_once, shown_bytes_are_written, tabled_texts_tell_bytes};
pub use shown::shown_text;
pub use tabled::{bytes_by_table, tabled_text};
pub use text_table::{TextTable, all_text_tables, text_table_named};
