//! Descriptors as JSON elements, and JSON elements as descriptors.
//! The layer above uses `descr_json` and `json_descr`, and `shown_descr_is_read`, the law that ties them; and for what is
//! no descriptor but has a page `body_json` and `read_element_body`.
#![tactic(auto)]

mod descr_laws;
mod formed_reading;
mod formed_showing;
mod reading;
mod showing;

pub use descr_laws::shown_descr_is_read;
pub use reading::{json_descr, read_element_body};
pub use showing::{body_json, descr_json};
