//! The lines of one plugin that wait to be told.

use plugin_trait::Line;
use std::collections::VecDeque;

/// The lines of one plugin that wait to be told, in the order of their positions.
#[derive(Drop)]
pub struct LineRow {
    pub(crate) lines: VecDeque<Line>,
}
