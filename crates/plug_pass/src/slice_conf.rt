//! The settings of `slice`.

ghost use Rattle.std.specs.Prelude.{◌≡◌};
ghost use Rattle.plug_pass.specs.SliceSettings.{same_numbers, slice_together, slices_differ};

/// Settings of `slice`, four options of which name the packet from which on they hold.
///
/// Packets are counted from 0, or have the milliseconds of the stream's clock as their numbers. At least one of the four is
/// given, and no two have the same number. Each number is at most 2^60. A PID is given only with milliseconds.
#[derive(Drop)]
pub struct SliceConf {
    /// From here on packets are dropped.
    pub drop: Option<u64>,
    /// From here on packets become null packets.
    pub null: Option<u64>,
    /// From here on packets pass.
    pub pass: Option<u64>,
    /// The chain ends before this packet.
    pub stop: Option<u64>,
    /// The numbers are milliseconds of the stream's clock.
    pub milliseconds: bool,
    /// The PID whose PCRs tell the time, 0 to 8191; without it the clock finds one.
    pub pcr_pid: Option<u64>,
}

impl SliceConf {
    /// Whether no two options have the same number, and a PID is given only with milliseconds.
    pub fn goes_together(&self) -> bool
        ensures { result ≡ slice_together self.now }
    {
        self.has_distinct_numbers() && (self.milliseconds || self.pcr_pid.is_none())
    }

    // Whether no two options have the same number.
    fn has_distinct_numbers(&self) -> bool
        ensures { result ≡ slices_differ self.now }
    {
        !are_same(self.drop, self.null)
            && !are_same(self.drop, self.pass)
            && !are_same(self.drop, self.stop)
            && !are_same(self.null, self.pass)
            && !are_same(self.null, self.stop)
            && !are_same(self.pass, self.stop)
    }
}

// Both are given, with the same number.
fn are_same(one: Option<u64>, other: Option<u64>) -> bool
    ensures { result ≡ same_numbers one other }
{
    match (one, other) {
        (Some(a), Some(b)) => a == b,
        _ => false,
    }
}
