//! Options as words and the values that they stand for: the words of one segment are read by its table of options, or
//! the first rule that they break is returned. The layer above makes a command of its options, reads each by
//! `ParsedOptions`, and keeps sets of PIDs, labels and numbers in the types of this crate.
#![tactic(auto)]

mod commands;
mod hex_text;
mod label_list;
mod limits;
mod number;
mod number_set;
mod numbered;
mod numbered_parts;
mod option_row;
mod option_word;
mod pair_list;
mod pairs;
mod parsed_options;
mod part;
mod part_text;
mod pid_set;
mod ranges;
mod refusal;
mod segment_help;
mod service_texts;
mod sign;
mod signed;
mod signs;
mod takes;
mod word_list;
mod words_rule;

pub use commands::{command_with, new_command, with_value};
pub use hex_text::read_bytes;
pub use label_list::LabelList;
pub use limits::{
    LAST_LABEL, LAST_OFFSET, LAST_PID, LAST_SERVICE, MOST_BYTES, MOST_NUMBER, MOST_PACKETS,
    MOST_PAIRS, MOST_WINDOW,
};
pub use number::read_number_within;
pub use number_set::NumberSet;
pub use numbered::{read_all_numbered, read_numbered};
pub use numbered_parts::NumberedParts;
pub use option_row::{Beside, Need, OptionRow, OptionText};
pub use option_word::OptionWord;
pub use pair_list::PairList;
pub use pairs::{read_pair, read_pair_list};
pub use parsed_options::ParsedOptions;
pub use part::Part;
pub use part_text::read_part;
pub use pid_set::PidSet;
pub use ranges::read_ranges;
pub use refusal::Refusal;
pub use segment_help::SegmentHelp;
pub use service_texts::{is_number, is_service};
pub use sign::Sign;
pub use signed::read_signed_within;
pub use signs::split_at_sign;
pub use takes::Takes;
pub use words_rule::WordsRule;
