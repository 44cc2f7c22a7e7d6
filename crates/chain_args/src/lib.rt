//! The command line of `tsp`. Words come in; a plan of the chain or the first broken rule goes out. The layer above
//! uses `plan`, which returns `plan_of` of the words, or else `first_word_fault`.
#![tactic(auto)]

mod form_words;
mod found_words;
mod general_conf;
mod general_words;
mod input_conf;
mod input_words;
mod output_conf;
mod output_words;
mod plan_builder;
mod plan_of_words;
mod plan_type;
mod plugin_list;
mod segments;
mod stage_threads;
mod threads_words;
mod words_fault;

pub use general_conf::GeneralConf;
pub use general_words::general_help;
pub use input_conf::InputConf;
pub use input_words::input_helps;
pub use output_conf::OutputConf;
pub use output_words::output_helps;
pub use packet_forms::Form;
pub use plan_of_words::plan;
pub use plan_type::Plan;
pub use plugin_list::PluginList;
pub use plugin_options::WordsRule;
pub use stage_threads::StageThreads;
pub use words_fault::WordsFault;
