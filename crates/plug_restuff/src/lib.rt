//! The plugin `restuff`, with its options: a stream of one constant rate becomes one of a lower constant rate, and its
//! PCRs go with its packets. The layer above reads its settings from words, makes the plugin of its settings, and uses
//! it by the clauses of `Plugin`.
//!
//! A counter says which cells are slots of the lower rate (`slot_count`), a queue has the packets that wait for one
//! (`slot_line`). All memory is the queue's, and is taken before the run.
#![tactic(auto)]

mod limits;
mod moved_clock;
mod restuff;
mod restuff_conf;
mod restuff_laws;
mod restuff_words;
mod slot_count;
mod slot_line;
mod waiting;

pub use restuff::{Restuff, RestuffSteps, new_restuff};
pub use restuff_conf::RestuffConf;
pub use restuff_laws::packets_keep_their_order_and_time;
