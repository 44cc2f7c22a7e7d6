//! Texts on a screen.

ghost use Rattle.std.specs.Prelude.{◌≡◌, ◌++◌, chars, option_map, string_bytes, IfOk, OnOk};
ghost use Rattle.ts_charsets.specs.ShownTexts;
ghost use Rattle.ts_charsets.specs.ShownTexts.{screen_char, screen_chars};

use crate::encoding::chars_of;
use crate::tabled::tabled_text;
use std::alloc::{AllocError, Global};

/// The text of bytes in the table that they select, without emphasis and with a space for a line break; `None` where
/// some bytes have no character.
#[tactic(auto, unfolding(crate::specs::ShownTexts::shown_text))]
pub fn shown_text(alloc: Global, bytes: &[u8]) -> Result<Option<String>, AllocError>
    ensures { IfOk result (λ text. option_map string_bytes text ≡ ShownTexts.shown_text bytes.now) }
{
    let Some((_, text)) = tabled_text(alloc, bytes)? else {
        return Ok(None);
    };
    let characters = chars_of(alloc, &text)?;
    let shown = screen_text(alloc, &characters)?;
    Ok(Some(shown))
}

// The characters without emphasis and with a space for a line break.
fn screen_text(alloc: Global, characters: &[char]) -> Result<String, AllocError>
    ensures { IfOk result (λ shown. string_bytes shown ≡ screen_chars characters.now) }
{
    let mut shown = String::new(alloc);
    for character in characters {
        push_on_screen(&mut shown, *character)?;
    }
    Ok(shown)
}

// Appends a character, or a space for a line break, or nothing for emphasis.
fn push_on_screen(shown: &mut String, character: char) -> Result<(), AllocError>
    ensures { OnOk result (string_bytes shown.new ≡ string_bytes shown.old ++ screen_char character) }
{
    if character == '\u{E086}' || character == '\u{E087}' {
        return Ok(());
    }
    if character == '\n' || character == '\u{E08A}' {
        shown.push_str(" ")?;
        return Ok(());
    }
    shown.push(character)?;
    Ok(())
}
