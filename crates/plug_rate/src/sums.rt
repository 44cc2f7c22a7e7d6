//! What is kept of the measurements below the mark.
ghost use Rattle.std.specs.Prelude.{◌≡◌};
ghost use Rattle.plug_rate.specs.RateTexts.{greater, lesser};
ghost use Rattle.plug_rate.specs.Summing.{best_with};

use crate::judged::Judged;

/// How many measurements there were, the least and the greatest bit rate, and whether one was outside of the bounds.
#[derive(Clone, Copy, PartialEq, Eq)]
pub struct Sums {
    /// How many measurements there were.
    pub count: u64,
    /// The least bit rate; `None` where there was no measurement.
    pub least: Option<u128>,
    /// The greatest one.
    pub greatest: Option<u128>,
    /// One was outside of the bounds.
    pub has_fault: bool,
}

impl Sums {
    ghost use Rattle.std.specs.Prelude.{◌≡◌, ◌++◌, ◌∷◌, ◌||◌, [], List};
    ghost use Rattle.plug_rate.specs.RateRule.{is_wrong};
    ghost use Rattle.plug_rate.specs.Summing.{HasSumRoom, IsSummed};
    ghost use Rattle.plug_rate.specs.declared.judged.Judged.{Judged as GivenJudged};

    /// No measurement yet.
    pub fn none() -> Sums
        ensures { IsSummed result [] }
    {
        Sums {
            count: 0,
            least: None,
            greatest: None,
            has_fault: false,
        }
    }

    /// Adds one more measurement.
    pub fn add(&mut self, judged: &Judged)
        requires { HasSumRoom self.old }
        ensures { (measures : List GivenJudged) → IsSummed self.old measures → IsSummed self.new (measures ++ judged.now ∷ []) }
    {
        *self = self.with(judged);
    }

    // Whether one was outside of the bounds, with one more.
    fn has_fault_with(&self, judged: &Judged) -> bool
        ensures { result ≡ (self.now.has_fault || is_wrong judged.now) }
    {
        self.has_fault || judged.verdict.is_fault()
    }

    // With one more measurement.
    fn with(&self, judged: &Judged) -> Sums
        requires { HasSumRoom self.now }
        ensures { (measures : List GivenJudged) → IsSummed self.now measures → IsSummed result (measures ++ judged.now ∷ []) }
    {
        let bitrate = judged.measure.bitrate;
        Sums {
            count: self.count + 1,
            least: Some(least_with(self.least, bitrate)),
            greatest: Some(greatest_with(self.greatest, bitrate)),
            has_fault: self.has_fault_with(judged),
        }
    }
}

// The least of the bit rates, with one more.
fn least_with(least: Option<u128>, bitrate: u128) -> u128
    ensures { result ≡ best_with lesser least bitrate }
{
    match least {
        Some(least) if least <= bitrate => least,
        _ => bitrate,
    }
}

// The greatest of the bit rates, with one more.
fn greatest_with(greatest: Option<u128>, bitrate: u128) -> u128
    ensures { result ≡ best_with greater greatest bitrate }
{
    match greatest {
        Some(greatest) if greatest >= bitrate => greatest,
        _ => bitrate,
    }
}
