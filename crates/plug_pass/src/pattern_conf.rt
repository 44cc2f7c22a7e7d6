//! The settings of `pattern`.

use plugin_options::NumberSet;
use ts_outside::FileBytes;

/// Settings of `pattern`, which writes a pattern over the payload.
#[derive(Drop)]
pub struct PatternConf {
    /// The pattern, 1 to 184 bytes.
    pub operand: FileBytes,
    /// The PIDs of the packets that are changed; none where all are.
    pub pid: NumberSet,
    /// The packets on all other PIDs are changed instead.
    pub negate: bool,
    /// Where in the payload the pattern begins in a packet with the payload unit start indicator, 0 to 183; 0 where not given.
    pub offset_pusi: Option<u64>,
    /// Where it begins in a packet without that indicator, 0 to 183; 0 where not given.
    pub offset_non_pusi: Option<u64>,
}
