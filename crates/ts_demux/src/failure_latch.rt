//! A latch for calls that fail for good.

ghost use Rattle.std.specs.Prelude.{◌≡◌, true, false, OnOk, OnErr, IsErr};

use std::alloc::AllocError;
use std::marker::Model;

/// Whether a call ran out of memory. Once it is set it stays set: every later call returns `AllocError`.
#[derive(Drop)]
pub struct FailureLatch {
    failed: bool,
}

// Clauses see whether a call failed.
impl Model for FailureLatch {
    ghost use Rattle.std.specs.Prelude.{Bool};

    ghost Value = { Bool };

    ghost view = { λ latch. latch.failed };
}

impl FailureLatch {
    ghost use Rattle.std.specs.Prelude.{◌≡◌, true, false, OnOk, OnErr, IsErr};

    /// No call failed.
    #[inline]
    pub fn unset() -> FailureLatch
        ensures { result ≡ false }
    {
        FailureLatch { failed: false }
    }

    /// Whether a call failed.
    #[inline]
    pub fn is_set(&self) -> bool
        ensures { result ≡ self.now }
    {
        self.failed
    }

    /// `AllocError` exactly if a call failed. It is the first line of each call that fails for good.
    #[inline]
    pub fn check(&self) -> Result<(), AllocError>
        ensures unset { OnOk result (self.now ≡ false) }
        ensures set { OnErr result (self.now ≡ true) }
        ensures stays_set { self.now ≡ true → IsErr result }
    {
        if self.failed {
            return Err(AllocError);
        }
        Ok(())
    }

    /// Returns the result of a call unchanged, and sets the latch if the call failed.
    #[inline]
    pub fn note<T>(&mut self, answer: Result<T, AllocError>) -> Result<T, AllocError>
        ensures same { result ≡ answer }
        ensures as_before { OnOk result (self.new ≡ self.old) }
        ensures set { OnErr result (self.new ≡ true) }
    {
        match answer {
            Ok(value) => Ok(value),
            Err(error) => {
                self.failed = true;
                Err(error)
            }
        }
    }
}
