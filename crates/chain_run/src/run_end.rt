//! What a run returns.

use chain_core::Closed;
use plugin_trait::Heard;
use stage_run::{InputPart, OutputPart};
use std::alloc::AllocError;

/// What a run returns.
pub struct RunEnd<S, K, P> {
    pub input: InputPart<S>,
    /// The plugins in the same order, each with the lines that it gave out: those of the cells below its greatest mark.
    pub plugins: Vec<Heard<P>>,
    pub output: OutputPart<K>,
    /// The cut and its cause. `AllocError` where there was no memory for the run; then nothing was done.
    pub closed: Result<Closed, AllocError>,
}
