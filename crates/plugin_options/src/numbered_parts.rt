//! A list of parts, each behind a number.
ghost use Rattle.std.specs.Prelude.{◌≡◌, IfOk};

use std::alloc::AllocError;
use std::marker::Model;
use ts_outside::FileBytes;

/// Numbers in order, each with the bytes of what stands behind it, as `pmt --language` has them.
#[derive(Drop)]
pub struct NumberedParts {
    parts: Vec<(u64, FileBytes)>,
}

impl Model for NumberedParts {
    ghost use Rattle.std.specs.Prelude.{List, ℕ};

    ghost Value = { List (ℕ × List ℕ) };

    ghost view = { λ l. l.parts.items };
}

impl NumberedParts {
    /// The list of these parts. Allocates nothing.
    pub fn of(parts: Vec<(u64, FileBytes)>) -> NumberedParts
        ensures { result ≡ parts.items }
    {
        NumberedParts { parts }
    }

    /// The parts as a slice.
    pub fn as_slice(&self) -> &[(u64, FileBytes)]
        ensures { result.now ≡ self.now }
    {
        self.parts.as_slice()
    }

    /// A copy of the list.
    pub fn copy(&self) -> Result<NumberedParts, AllocError>
        ensures { IfOk result (λ list. list ≡ self.now) }
    {
        let mut parts = Vec::new(*self.parts.allocator());
        let held = self.as_slice();
        for part in held {
            parts.push((part.0, part.1.copy()?))?;
        }
        Ok(NumberedParts { parts })
    }
}
