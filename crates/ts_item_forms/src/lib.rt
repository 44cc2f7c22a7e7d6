//! Bodies with items whose first fields say which others they have, and with items that have items in them. A page, the form
//! of its items and a body come in; values go out, each item with the fields that it has. The layer above rests on
//! `read_formed` and `write_formed`, which agree with one grammar (`specs/ItemForms.antt`), and on `formed_is_written`.
#![tactic(auto)]

mod form;
mod forms_laws;
mod read;
mod write;

pub use form::{FormedBody, FormedItem, ItemForm};
pub use forms_laws::{formed_is_read, formed_is_written, item_page_is_sound};
pub use read::read_formed;
pub use write::write_formed;
