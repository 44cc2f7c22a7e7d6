//! The settings of `inject`.
//!
//! They are what the plugin needs, and not its options one by one: the mode has the distance in it, so that both modes
//! at once, or none, cannot be written down.
ghost use Rattle.std.specs.Prelude.{◌≡◌};
ghost use Rattle.plug_inject.specs.InjectSettings.{mode_of};

use plugin_options::PairList;
use ts_outside::NameText;
use ts_packet::NULL_PID;

/// The greatest PID that may carry sections.
pub const LAST_CARRIER: u64 = NULL_PID as u64 - 1;

/// The greatest table_id.
pub const LAST_TABLE: u64 = 255;

/// Settings of `inject`, which replaces packets by those of sections.
#[derive(Drop)]
pub struct InjectConf {
    /// The name of the file with the sections; the empty name is the standard input.
    pub file: NameText,
    /// The PID on which the sections are carried, 0 to 8190.
    pub pid: u64,
    /// Which packets are replaced.
    pub mode: InjectMode,
    /// Whether the counters of all packets that leave on the PID go on.
    pub fix_counters: bool,
    /// Pairs of a table_id and the least distance of its sections in packets that are put in, 1 to 2^60; where there
    /// are none, all sections are packed together.
    pub every: PairList,
}

/// Which packets are replaced.
#[derive(Drop, Clone, Copy, PartialEq, Eq)]
pub enum InjectMode {
    /// Every packet on the PID of the sections.
    Replace,
    /// Each null packet for which none of the N - 1 packets just before it was replaced. N is 1 to 2^60.
    InterPacket(u64),
}

impl InjectMode {
    /// The mode given by an optional distance.
    pub fn of(inter_packet: Option<u64>) -> InjectMode
        ensures { result ≡ mode_of inter_packet }
    {
        match inter_packet {
            Some(distance) => InjectMode::InterPacket(distance),
            None => InjectMode::Replace,
        }
    }
}
