//! The news that a visit returns.

/// The news that a visit returns to its stage.
#[derive(Debug, Clone, Copy, PartialEq, Eq)]
pub struct News {
    /// The stage may work on the positions below this number, or it has given them on.
    pub taken: u64,
    /// Where joint termination cuts the chain, once every plugin that uses it has agreed.
    pub limit: Option<u64>,
    /// How many cells the output has given, at most the limit. The cut is no less.
    pub written: u64,
    /// The stage before has ended, and this stage has given on all its cells.
    pub before_over: bool,
    /// The next stage has ended.
    pub after_over: bool,
}
