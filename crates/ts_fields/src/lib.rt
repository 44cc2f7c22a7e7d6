//! Reads and writes bytes by layouts, the tables of the standard row by row. Bytes or values come in; values or bytes
//! go out. The layer above rests on `read_body` and `write_body`, which agree with one grammar (`specs/Bodies.antt`).
#![tactic(auto)]

mod bits_laws;
mod body;
mod field;
mod layout;
mod pages_laws;
mod reader;
mod rows_laws;
mod texts;
mod times;
mod writer;

pub use bits_laws::{
    bits_tell_bytes, length_of_bits, read_bytes_are_spelled, read_number_is_spelled,
    spelled_bytes_are_read, spelled_number_is_read,
};
pub use body::{read_body, write_body};
pub use field::{Field, FieldValue, Kind};
pub use layout::{Body, Item, ItemLayout, Layout};
pub use pages_laws::{fit_page_is_shaped, read_is_written, small_page_fits, written_is_read};
pub use reader::{BitReader, NotRead, read_field, read_rows};
pub use rows_laws::{
    fit_rows_are_shaped, length_of_read_rows, length_of_spelled_rows, read_rows_are_spelled,
    spelled_rows_are_read,
};
pub use texts::{are_printable, text_bytes, text_of, texts_tell_bytes};
pub use times::{is_start, is_time};
pub use writer::{BitWriter, write_rows};
