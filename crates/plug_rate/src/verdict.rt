//! How a bit rate stands to the bounds that were given.

/// How a bit rate stands to the bounds that were given.
#[derive(Clone, Copy, PartialEq, Eq)]
pub enum Verdict {
    /// No bound was given.
    Unbounded,
    /// It is within the bounds, and so was the one before, if there was one.
    Within,
    /// It is within the bounds, and the one before was not.
    Again,
    /// It is below the least.
    Low,
    /// It is above the greatest.
    High,
}

impl Verdict {
    ghost use Rattle.std.specs.Prelude.{◌≡◌, option_map};
    ghost use Rattle.plug_rate.specs.Bounds.{is_fault};
    ghost use Rattle.plug_rate.specs.RateTexts.{ending_of};

    /// Whether the bit rate is outside of the bounds.
    pub fn is_fault(self) -> bool
        ensures { result ≡ is_fault self }
    {
        match self {
            Verdict::Low | Verdict::High => true,
            Verdict::Unbounded | Verdict::Within | Verdict::Again => false,
        }
    }

    /// What stands at the end of its line; `None` where it has no line.
    pub fn ending(self) -> Option<&'static str>
        ensures { option_map (λ text. text.now) result ≡ ending_of self }
    {
        match self {
            Verdict::Unbounded => Some(""),
            Verdict::Within => None,
            Verdict::Again => Some(" again"),
            Verdict::Low => Some(" low"),
            Verdict::High => Some(" high"),
        }
    }
}
