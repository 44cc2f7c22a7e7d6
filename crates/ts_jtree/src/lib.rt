//! JSON elements by rows of fields: an element is read as its values, or its first fault, and values are shown as one.
//! The layer above uses `read_element` and `show_attributes`, and `element_shows`, the law that ties them.
#![tactic(auto)]

mod attribute;
mod element;
mod element_laws;
mod fault;
mod number;
mod shown;

pub use attribute::{member, read_attributes};
pub use element::{
    check_keys, check_name, children, element_name, members, no_children, read_element,
};
pub use element_laws::{element_shows, fit_is_shown, shown_is_read, values_are_shaped};
pub use fault::{JsonFault, JsonKind, KeyText, PathList, ReadRefusal, at_child, refuse_key};
pub use number::{number_of_value, truth_of_value};
pub use shown::{element_json, put_member, put_text, show_attributes};
