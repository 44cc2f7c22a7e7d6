//! The settings of `until`.

ghost use Rattle.std.specs.Prelude.{◌≡◌};
ghost use Rattle.plug_end.specs.UntilSettings.{until_together};

/// Settings of `until`, which ends the chain once a number is reached.
///
/// Exactly one of the four numbers is given. The counts are from 1 to 2^60, the seconds from 0 to 2^32. Of the two flags
/// at most one is given, and a PID only with seconds.
#[derive(Drop)]
pub struct UntilConf {
    /// So many packets.
    pub packets: Option<u64>,
    /// So many bytes, 188 a packet.
    pub bytes: Option<u64>,
    /// So many packets with the payload unit start indicator.
    pub unit_start_count: Option<u64>,
    /// So many seconds of the stream's clock, with at least one packet.
    pub seconds: Option<u64>,
    /// The PID whose PCRs tell the time, 0 to 8191; without it the clock finds one.
    pub pcr_pid: Option<u64>,
    /// The packet that reaches the number is left out.
    pub exclude_last: bool,
    /// The plugin agrees to end where the number is reached, and packets go on passing.
    pub joint_termination: bool,
}

impl UntilConf {
    /// Whether exactly one of the four numbers is given, not both flags, and a PID only with seconds.
    pub fn goes_together(&self) -> bool
        ensures { result ≡ until_together self.now }
    {
        let given = self.packets.is_some() as u8
            + self.bytes.is_some() as u8
            + self.unit_start_count.is_some() as u8
            + self.seconds.is_some() as u8;
        given == 1
            && !(self.exclude_last && self.joint_termination)
            && (self.pcr_pid.is_none() || self.seconds.is_some())
    }
}
