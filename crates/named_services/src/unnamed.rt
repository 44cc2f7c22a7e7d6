//! Why a name means no service.

/// Why a word that is a name means no service. It explains a run, and no rule rests on it.
#[derive(Clone, Copy, PartialEq, Eq)]
pub enum Unnamed {
    /// No SDT came.
    NoSdt,
    /// The SDT in force has no service of this name.
    NoName,
}
