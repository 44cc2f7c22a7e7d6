//! The generated stream: tables, PCRs, payloads and null packets made from a seed, packet by packet.
//! The layer above uses `TestGen::next_packet`, which returns `generated seed given` of `specs/`.
#![tactic(auto)]

mod carriers;
mod mixed;
mod rule;
mod tables;
mod test_gen;

pub use rule::Rule;
pub use test_gen::TestGen;
