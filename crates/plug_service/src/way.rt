//! What is done with services.

use crate::kept::Kept;

/// What is done with services.
#[derive(Clone, Copy, PartialEq, Eq)]
pub(crate) enum Way {
    /// They are kept, with these other tables, and all else is removed.
    Keep(Kept),
    /// They are removed, and all others are kept. With `everywhere` their EIT sections and their items in the NIT of the
    /// actual network and in BATs are removed too.
    Remove { everywhere: bool },
}
