//! A line with the number of its plugin.

use plugin_notes::PacketNote;
use plugin_trait::Line;

/// A line that a plugin gave out, with the number of the plugin.
#[derive(Drop)]
pub struct ToldLine {
    /// The number of the plugin, counted from 1.
    pub plugin: usize,
    pub line: Line,
}

impl PacketNote for ToldLine {
    ghost use Rattle.chain_rounds.specs.Told.{place_of};

    ghost place = { place_of };

    fn at(&self) -> u64 {
        self.line.at
    }
}
