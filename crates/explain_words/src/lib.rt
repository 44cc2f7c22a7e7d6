//! What a refused command line is shown beyond its one line: a table of options, the words and the broken rule come in, a text
//! that marks the faulty word and says what may be there goes out. The programs above use `fault_text`, and `words_text` where
//! they have no such table. No clause says what the texts are: their rows are in `test_explain`.
#![tactic(auto)]

mod bad_value;
mod explained;
mod first_fault;
mod fits;
mod help_table;
mod marked;
mod names;
mod piece;
mod role;
mod said;
mod said_text;
mod segment;
mod segment_row;
mod shown_option;
mod unknown;
mod wanted;
mod word_place;
mod word_row;

pub use explained::fault_text;
pub use help_table::HelpTable;
pub use segment_row::SegmentRow;
pub use shown_option::ShownOption;
pub use word_place::words_text;
pub use word_row::WordRow;
