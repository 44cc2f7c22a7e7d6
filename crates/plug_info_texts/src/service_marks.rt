//! What else is shown of a service: its CA_system_ids, and what the SDT says of its access and its state.
ghost use Rattle.std.specs.Prelude.{◌≡◌, IfOk};
ghost use Rattle.std.specs.String.{string_bytes};
ghost use Rattle.plug_info_texts.specs.InfoJson;
ghost use Rattle.plug_info_texts.specs.InfoTexts;

use crate::json_marks::cas_json;
use crate::languages::cas_text;
use std::alloc::{AllocError, Global};

/// The parts of its line. The status is free_CA_mode and running_status (ETSI EN 300 468, 5.2.3).
pub fn service_marks_text(
    alloc: Global,
    ids: &[u16],
    status: Option<(u8, u8)>,
) -> Result<String, AllocError>
    ensures { IfOk result (λ text. string_bytes text ≡ InfoTexts.service_marks ids.now status) }
{
    let cas = cas_text(alloc, ids)?;
    let status = status_text(alloc, status)?;
    let text = format!(in alloc; "{cas}{status}")?;
    Ok(text)
}

// free_CA_mode and running_status, if they are known.
fn status_text(alloc: Global, status: Option<(u8, u8)>) -> Result<String, AllocError>
    ensures { IfOk result (λ text. string_bytes text ≡ InfoTexts.status_text status) }
{
    let text = match status {
        Some((access, running)) => {
            format!(in alloc; " free_CA_mode {access} running_status {running}")?
        }
        None => String::new(alloc),
    };
    Ok(text)
}

/// The parts of its object.
pub fn service_marks_json(
    alloc: Global,
    ids: &[u16],
    status: Option<(u8, u8)>,
) -> Result<String, AllocError>
    ensures { IfOk result (λ text. string_bytes text ≡ InfoJson.service_marks ids.now status) }
{
    let cas = cas_json(alloc, ids)?;
    let status = status_json(alloc, status)?;
    let text = format!(in alloc; ",\"ca\":{cas}{status}")?;
    Ok(text)
}

// free_CA_mode and running_status, or `null` for both.
fn status_json(alloc: Global, status: Option<(u8, u8)>) -> Result<String, AllocError>
    ensures { IfOk result (λ text. string_bytes text ≡ InfoJson.status_json status) }
{
    let text = match status {
        Some((access, running)) => {
            format!(in alloc; ",\"free_CA_mode\":{access},\"running_status\":{running}")?
        }
        None => String::from_str(alloc, ",\"free_CA_mode\":null,\"running_status\":null")?,
    };
    Ok(text)
}
