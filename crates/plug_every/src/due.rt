//! A packet behind which a summary is due.
use plugin_notes::PacketNote;

/// A packet behind which a summary is due.
#[derive(Clone, Copy, PartialEq, Eq)]
pub struct Due {
    /// Its position.
    pub at: u64,
    /// How many packets the plugin has seen with it.
    pub seen: u64,
}

impl PacketNote for Due {
    ghost use Rattle.plug_every.specs.DueNotes.{place_of};

    ghost place = { place_of };

    fn at(&self) -> u64 {
        self.at
    }
}
