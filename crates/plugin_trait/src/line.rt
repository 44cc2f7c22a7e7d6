//! A line of a report with its position.

use crate::LineText;

/// A line that a plugin reports.
#[derive(Drop)]
pub struct Line {
    /// The position of the packet that the line is about. For a line of the summary it is the cut.
    pub at: u64,
    /// The line, without the plugin's number and name and without an end of line.
    pub text: LineText,
}
