//! The parts of a chain before its run.

use plugin_trait::Heard;
use stage_run::{InputPart, OutputPart, Stuffing};

/// The stages of a chain before it runs.
pub struct Stages<S, K, P> {
    /// Where the packets come from. Nothing was read of it.
    pub input: InputPart<S>,
    /// The null packets that the input puts in.
    pub stuffing: Stuffing,
    /// The plugins in their order. None has met a cell, and none has lines.
    pub plugins: Vec<Heard<P>>,
    /// Where the packets go. Nothing was written to it.
    pub output: OutputPart<K>,
}
