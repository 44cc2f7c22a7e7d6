//! Fields that are there by the value of a field in front of them. A page, its groups of further fields and a body come in;
//! the fields that are there and their values go out. The layer above rests on `read_grouped`, `chosen_rows` and
//! `write_fields`, which agree with one grammar (`specs/Groups.antt`).
#![tactic(auto)]

mod group;
mod grouped;
mod groups_laws;

pub use group::{Condition, FieldGroup, chosen_rows};
pub use grouped::{GroupedBody, read_grouped, write_fields};
pub use groups_laws::{
    chosen_page_is_exact, chosen_page_is_sound, front_is_read_first, grouped_is_read,
    grouped_is_written,
};
