//! The texts of the plugin `info`. Numbers, names and the bodies of descriptors come in; parts of the lines that it
//! reports, and of its one JSON object, go out. The layer above puts them together, by the clause of each, which says
//! which text it is.
#![tactic(auto)]

mod eit_numbers;
mod eit_texts;
mod json_marks;
mod json_parts;
pub mod json_texts;
mod languages;
pub mod line_texts;
mod marks;
mod name_row;
mod named;
mod pid_numbers;
mod plain_texts;
mod portions;
mod rounding;
mod scene;
mod service_marks;
mod shown;
mod stream_numbers;

pub use eit_numbers::EitNumbers;
pub use eit_texts::{eit_json, eit_text};
pub use json_marks::marks_json;
pub use json_parts::{array, number_or_null, portion_json, push_item, troubles_json};
pub use languages::marks_text;
pub use name_row::pid_name;
pub use named::{named_json, named_text};
pub use pid_numbers::PidNumbers;
pub use portions::{portion_text, troubles_text};
pub use rounding::rounded;
pub use scene::Scene;
pub use service_marks::{service_marks_json, service_marks_text};
pub use shown::widened;
pub use stream_numbers::StreamNumbers;
