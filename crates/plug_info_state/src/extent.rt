//! How far the packets reach, from the first one to the last.
ghost use Rattle.std.specs.Prelude.{◌≡◌, ◌<◌};
ghost use Rattle.chain_model.specs.declared.positions.TheConstants.{POSITION_LIMIT};
ghost use Rattle.plug_info_state.specs.ExtentKept.{extent_with};

/// How far the packets reach.
#[derive(Clone, Copy, PartialEq, Eq)]
pub struct Extent {
    /// The position of the first packet, if there was one.
    pub start: Option<u64>,
    /// The positions from it to the last packet, both included.
    pub positions: u64,
}

impl Extent {
    /// How far they reach after one more packet, at a position.
    #[inline]
    pub fn with(&self, at: u64) -> Extent
        requires { at < POSITION_LIMIT }
        ensures { result ≡ extent_with self.now at }
    {
        let start = self.start.unwrap_or(at);
        Extent {
            start: Some(start),
            positions: (at + 1).saturating_sub(start),
        }
    }
}
