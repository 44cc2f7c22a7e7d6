//! A name on the command line.
ghost use Rattle.std.specs.Prelude.{◌≡◌, IfOk};
ghost use Rattle.std.specs.String.{string_bytes};

use std::alloc::AllocError;
use std::marker::Model;

/// A name or another short text of the command line; contracts see the bytes of its UTF-8 form.
///
/// The empty name means the standard stream.
#[derive(Drop, Debug)]
pub struct NameText {
    text: String,
}

impl Model for NameText {
    ghost use Rattle.std.specs.Prelude.{List, ℕ};
    ghost use Rattle.std.specs.String.{string_bytes};

    ghost Value = { List ℕ };

    ghost view = { λ n. string_bytes n.text };
}

impl NameText {
    /// The name with this text. Allocates nothing.
    pub fn of(text: String) -> NameText
        ensures { result ≡ string_bytes text }
    {
        NameText { text }
    }

    /// The text as a `str`.
    pub fn as_str(&self) -> &str
        ensures { result.now ≡ self.now }
    {
        self.text.as_str()
    }

    /// The text as a `String`. Allocates nothing.
    pub fn into_string(self) -> String
        ensures { string_bytes result ≡ self }
    {
        let NameText { text } = self;
        text
    }

    /// A copy of the text.
    pub fn copy(&self) -> Result<NameText, AllocError>
        ensures { IfOk result (λ t. t ≡ self.now) }
    {
        let text = String::from_str(*self.text.allocator(), self.text.as_str())?;
        Ok(NameText { text })
    }
}
