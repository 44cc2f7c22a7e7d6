//! The text of a line of a report.

ghost use Rattle.std.specs.Prelude.{◌≡◌};
ghost use Rattle.std.specs.String.{string_bytes};

use std::marker::Model;

/// The text of a line of a report, seen as the bytes of its UTF-8 form. It has no end of line.
#[derive(Drop)]
pub struct LineText {
    text: String,
}

impl Model for LineText {
    ghost use Rattle.std.specs.Prelude.{List, ℕ};
    ghost use Rattle.std.specs.String.{string_bytes};

    ghost Value = { List ℕ };

    ghost view = { λ t. string_bytes t.text };
}

impl LineText {
    /// A line with this text. It allocates nothing.
    pub fn of(text: String) -> LineText
        ensures { result ≡ string_bytes text }
    {
        LineText { text }
    }

    /// The text.
    pub fn as_str(&self) -> &str
        ensures { result.now ≡ self.now }
    {
        self.text.as_str()
    }
}
