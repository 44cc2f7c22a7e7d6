//! The bounds of the bit rate.
ghost use Rattle.std.specs.Prelude.{◌≡◌};
ghost use Rattle.plug_rate.specs.Bounds.{is_above, is_below};

use crate::verdict::Verdict;

/// The least and the greatest bit rate, in bits per second, 0 to 2^60; each may be left out.
#[derive(Clone, Copy, PartialEq, Eq)]
pub struct Bounds {
    /// The least bit rate.
    pub least: Option<u64>,
    /// The greatest bit rate.
    pub most: Option<u64>,
}

impl Bounds {
    ghost use Rattle.std.specs.Prelude.{◌≡◌};
    ghost use Rattle.plug_rate.specs.Bounds.{are_in_order, is_outside, verdict_of};

    /// Whether the least is at most the greatest, where both are given.
    pub fn are_in_order(&self) -> bool
        ensures { result ≡ are_in_order self.now }
    {
        match (self.least, self.most) {
            (Some(least), Some(most)) => least <= most,
            _ => true,
        }
    }

    /// Whether a bit rate is outside of them.
    pub fn is_outside(&self, bitrate: u128) -> bool
        ensures { result ≡ is_outside self.now bitrate }
    {
        is_below(bitrate, self.least) || is_above(bitrate, self.most)
    }

    /// How a bit rate stands to them, where the one before was outside of them or not.
    pub fn verdict(&self, was_outside: bool, bitrate: u128) -> Verdict
        ensures { result ≡ verdict_of self.now was_outside bitrate }
    {
        if is_below(bitrate, self.least) {
            return Verdict::Low;
        }
        if is_above(bitrate, self.most) {
            return Verdict::High;
        }
        if was_outside {
            return Verdict::Again;
        }
        if self.least.is_some() {
            return Verdict::Within;
        }
        if self.most.is_some() {
            return Verdict::Within;
        }
        Verdict::Unbounded
    }
}

// Whether a bit rate is below the least, if there is one.
fn is_below(bitrate: u128, least: Option<u64>) -> bool
    ensures { result ≡ is_below bitrate least }
{
    match least {
        Some(least) => bitrate < u128::from(least),
        None => false,
    }
}

// Whether a bit rate is above the greatest, if there is one.
fn is_above(bitrate: u128, most: Option<u64>) -> bool
    ensures { result ≡ is_above bitrate most }
{
    match most {
        Some(most) => u128::from(most) < bitrate,
        None => false,
    }
}
