//! The requests to a desk.
use crate::name_text::NameText;

/// What a name is requested for.
#[derive(Clone, Copy, PartialEq, Eq)]
pub enum Purpose {
    /// A source, by `open_in`.
    Input,
    /// A sink, by `open_out`.
    Output,
    /// A whole file, by `read_file`.
    File,
}

/// A name that was requested of a desk.
#[derive(Drop)]
pub struct Asked {
    /// What it was requested for.
    pub purpose: Purpose,
    /// The name; the empty one is the standard stream.
    pub name: NameText,
    /// False exactly where `Failed` was returned.
    pub ok: bool,
}
