//! Networks and bouquets by name.
ghost use Rattle.std.specs.Prelude.{◌≡◌, IfOk, option_map};
ghost use Rattle.std.specs.String.{string_bytes};
ghost use Rattle.plug_info_texts.specs.NamedTexts;

use crate::json_parts::bytes_field;
use crate::shown::shown_or_none;
use plugin_trait::LineText;
use std::alloc::{AllocError, Global};

/// The text of the line of a network or a bouquet: the word for it, its number, and its name.
pub fn named_text(
    alloc: Global,
    word: &str,
    id: u16,
    name: Option<&[u8]>,
) -> Result<LineText, AllocError>
    ensures { IfOk result (λ text. text ≡ NamedTexts.named_text word.now id (option_map (λ b. b.now) name.entry)) }
{
    let name = shown_or_none(alloc, name)?;
    let text = format!(in alloc; "{word} {id} name {name}")?;
    Ok(LineText::of(text))
}

/// Its object: its number and its name.
pub fn named_json(alloc: Global, id: u16, name: Option<&[u8]>) -> Result<String, AllocError>
    ensures { IfOk result (λ text. string_bytes text ≡ NamedTexts.named_json id (option_map (λ b. b.now) name.entry)) }
{
    let name = bytes_field(alloc, "name", name)?;
    let text = format!(in alloc; "{{\"id\":{id},{name}}}")?;
    Ok(text)
}
