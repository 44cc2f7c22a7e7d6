//! What may be printed at any moment of a run, in whatever order its stages are served. A law; it runs nothing.
#![tactic(auto)]

mod laws;

pub use laws::every_order_prints_the_same;
