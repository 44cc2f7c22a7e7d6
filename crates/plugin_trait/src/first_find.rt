//! The first position at which a plugin found something to do.

ghost use Rattle.std.specs.Prelude.{◌≡◌, None};
ghost use Rattle.plugin_trait.specs.Finding.{first_of, none_below};

/// The first position at which a plugin found something to do, if it found any.
///
/// A plugin keeps it to know whether a run that is cut has a fault since nothing was found before the cut. `IsFirstFind`
/// says what it is of the cells that were met.
#[derive(Clone, Copy)]
pub struct FirstFind {
    at: Option<u64>,
}

impl FirstFind {
    /// Nothing was found yet.
    pub fn none() -> FirstFind
        ensures { result.at ≡ None }
    {
        FirstFind { at: None }
    }

    /// Notes whether something was found at the next position.
    #[inline]
    pub fn meet(&mut self, at: u64, finds: bool)
        ensures { self.new.at ≡ first_of self.old.at at finds }
    {
        if finds && self.at.is_none() {
            self.at = Some(at);
        }
    }

    /// Whether nothing was found at the positions below the cut.
    #[inline]
    pub fn is_none_below(&self, cut: u64) -> bool
        ensures { result ≡ none_below self.now.at cut }
    {
        match self.at {
            Some(at) => cut <= at,
            None => true,
        }
    }
}
