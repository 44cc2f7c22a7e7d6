//! Words of services from texts.

ghost use Rattle.std.specs.Prelude.{◌≡◌, IfOk, option_map};
ghost use Rattle.plugin_options.specs.Number.{number_within};
ghost use Rattle.named_services.specs.ServiceWords.{name_of, word_of};
ghost use Rattle.plugin_options.specs.declared.limits.TheConstants.{LAST_SERVICE};
ghost use Rattle.named_services.specs.declared.service_word.ServiceWord.TheVariants.{Number};

use crate::service_word::ServiceWord;
use plugin_options::{LAST_SERVICE, is_number, read_number_within};
use std::alloc::{AllocError, Global};
use ts_outside::NameText;

/// The word that a text is; `None` where it is empty, or a number that is not from 1 to 65535.
pub fn read_service(alloc: Global, text: &str) -> Result<Option<ServiceWord>, AllocError>
    ensures { IfOk result (λ word. word ≡ word_of text.now) }
{
    if is_number(text) {
        return Ok(numbered(text));
    }
    let name = named(alloc, text)?;
    Ok(name)
}

// The number that a text is, where it is that of a service.
fn numbered(text: &str) -> Option<ServiceWord>
    ensures { result ≡ option_map (λ id. Number id) (number_within 1 LAST_SERVICE text.now) }
{
    match read_number_within(text, 1, LAST_SERVICE) {
        Some(number) => Some(ServiceWord::Number(number as u16)),
        None => None,
    }
}

// The name that a text is.
fn named(alloc: Global, text: &str) -> Result<Option<ServiceWord>, AllocError>
    ensures { IfOk result (λ word. word ≡ name_of text.now) }
{
    if text.is_empty() {
        return Ok(None);
    }
    let name = NameText::of(String::from_str(alloc, text)?);
    Ok(Some(ServiceWord::Name(name)))
}
