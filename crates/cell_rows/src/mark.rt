//! The mark of a packet.
//!
//! Packets lie in a row of their own, so that many of them can be read and written as bytes where they stand; what a cell has
//! beside its packet is here.
ghost use Rattle.std.specs.Prelude.{◌≡◌, ℕ, List, true, false};
ghost use Rattle.ts_packet.specs.Cells.{Live, Dropped};
ghost use Rattle.ts_packet.specs.Labels.{no_labels};
ghost use Rattle.cell_rows.specs.Cells.{cell_of};

use ts_packet::Labels;

/// What a cell has beside its packet: the packet's labels, and whether a plugin dropped it.
#[derive(Clone, Copy)]
pub struct Mark {
    /// The labels of a live packet.
    pub labels: Labels,
    /// No plugin has dropped the packet.
    pub is_live: bool,
}

impl Mark {
    /// The mark of a dropped packet.
    #[inline]
    pub fn dropped() -> Mark
        ensures live { result.is_live ≡ false }
        ensures cell { (packet : List ℕ) → cell_of packet result ≡ Dropped }
    {
        Mark {
            labels: Labels::none(),
            is_live: false,
        }
    }

    /// The mark of a live packet without labels.
    #[inline]
    pub fn live() -> Mark
        ensures live { result.is_live ≡ true }
        ensures cell { (packet : List ℕ) → cell_of packet result ≡ Live packet no_labels }
    {
        Mark {
            labels: Labels::none(),
            is_live: true,
        }
    }
}
