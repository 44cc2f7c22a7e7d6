//! One service of a command line, by its number or its name. A word and packets of any PID come in, and the number that the word
//! means by the SDT in force goes out. The layer above reads the word by `service_option`, and asks `NamedService` for the number.
#![tactic(auto)]

mod followed_name;
mod laws;
mod named_service;
mod numbers;
mod option_word;

pub use laws::{a_number_means_itself, a_word_means_one_service};
pub use named_service::NamedService;
pub use named_services::{ServiceWord, Unnamed};
pub use numbers::first_number;
pub use option_word::service_option;
