//! Copies of texts that an option may give.

ghost use Rattle.std.specs.Prelude.{◌≡◌, IfOk};

use std::alloc::AllocError;
use ts_outside::NameText;

/// A copy of a text, if there is one.
pub fn copy_of_text(text: &Option<NameText>) -> Result<Option<NameText>, AllocError>
    ensures { IfOk result (λ copied. copied ≡ text.now) }
{
    match text {
        Some(text) => Ok(Some(text.copy()?)),
        None => Ok(None),
    }
}
