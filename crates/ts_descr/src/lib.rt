//! Descriptors as structs with a field for each name. Descriptors come in and structs go out, or structs come in and
//! descriptors go out. The layer above rests on `read_fields`, `read_items`, `write_fields` and `write_items`, and on
//! `Fields`.
//!
//! A descriptor is a page of rows, once in the code and once beside the standard (`ts_pages`). Its struct holds numbers
//! as wide as Rust's types; a number of fewer bits, as a teletext magazine of three, keeps its range by an invariant,
//! so that writing has no condition: a `Ca` with the PID 0xFFFF cannot be made, and whoever makes the struct shows that
//! the number fits. A refusal by `write` would give every caller a case that does not happen, and would report the
//! number later than where it was made. So `write` ensures that `read` gives the same values of what was written, and
//! of no other descriptor.
#![tactic(auto)]

mod by_page;
mod bytes;
mod descr_laws;
mod fields;
mod language;
mod refusal;
mod typed;

pub use by_page::{read_by_page, write_by_page};
pub use bytes::bytes_value;
pub use descr_laws::written_is_read_back;
pub use fields::Fields;
pub use language::LanguageCode;
pub use refusal::DescrRefusal;
pub use typed::{read_fields, read_items, write_fields, write_items};
