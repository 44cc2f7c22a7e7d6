//! Sets of stages, kept as bits.

ghost use Rattle.std.specs.Prelude.{◌≡◌, ℕ, ◌<◌, [], ◌∷◌, ◌++◌, ◌==◌, ◌||◌, ◌≤◌, false, All, IfNone, IfSome};

/// A set of stage numbers below 64.
#[derive(Clone, Copy)]
pub struct StageSet {
    bits: u64,
}

impl StageSet {
    ghost use Rattle.chain_core.specs.Stages.{has_stage, stages_of, IsNextFrom};

    /// The empty set.
    pub fn none() -> StageSet
        ensures { stages_of result ≡ [] }
    {
        StageSet { bits: 0 }
    }

    /// The set with this stage too. A stage above all others comes last.
    pub fn with(self, stage: usize) -> StageSet
        requires { stage < 64 }
        ensures has { (k : ℕ) → has_stage result k ≡ (k == stage || has_stage self k) }
        ensures above { All (λ k. k < stage) (stages_of self)
            → stages_of result ≡ stages_of self ++ stage ∷ [] }
    {
        StageSet {
            bits: self.bits | (1 << stage),
        }
    }

    /// Whether this stage is in the set.
    pub fn has(&self, stage: usize) -> bool
        ensures { result ≡ has_stage self.now stage }
    {
        stage < 64 && (self.bits >> stage) & 1 == 1
    }

    /// The least stage of the set from this number on, where there is one.
    #[inline]
    pub(crate) fn next_from(&self, from: usize) -> Option<usize>
        ensures none { IfNone result ((k : ℕ) → from ≤ k → has_stage self.now k ≡ false) }
        ensures some { IfSome result (λ stage. IsNextFrom self.now from stage) }
    {
        if from >= 64 {
            return None;
        }
        let rest = self.bits >> from;
        if rest == 0 {
            return None;
        }
        Some(from + rest.trailing_zeros() as usize)
    }
}
