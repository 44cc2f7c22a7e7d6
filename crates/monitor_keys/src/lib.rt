//! Keys of a monitor: what has to come again and again, each time within a limit. Packets come in with the stream's clock;
//! gaps go out. The layer above keeps a `Key`, or a `NamedKey` where a table asks for it, and hands it what it found in each
//! packet: by the clauses of `meet` the gaps are those of the key's definition.
#![tactic(auto)]

mod gap;
mod key;
mod key_laws;
mod key_limit;
mod named_key;
mod since_look;
mod span;

pub use gap::Gap;
pub use key::Key;
pub use key_laws::{
    a_dropped_cell_leaves_the_key, a_key_has_one_beginning, a_packet_without_news_leaves_the_key,
    an_errored_packet_leaves_the_key, times_are_those_of_the_line_clock,
};
pub use key_limit::KeyLimit;
pub use named_key::NamedKey;
pub use since_look::SinceLook;
pub use span::Span;
