//! The EIT sections of a service, as they are shown.
ghost use Rattle.std.specs.Prelude.{◌≡◌, IfOk};
ghost use Rattle.std.specs.String.{string_bytes};
ghost use Rattle.plug_info_texts.specs.EitTexts;

use crate::eit_numbers::EitNumbers;
use std::alloc::{AllocError, Global};

/// How many EIT sections there are, at the end of a service's line.
pub fn eit_text(alloc: Global, eit: EitNumbers) -> Result<String, AllocError>
    ensures { IfOk result (λ text. string_bytes text ≡ EitTexts.eit_text eit) }
{
    let text = format!(in alloc; " eit present {} schedule {}", eit.present, eit.schedule)?;
    Ok(text)
}

/// The same in its object.
pub fn eit_json(alloc: Global, eit: EitNumbers) -> Result<String, AllocError>
    ensures { IfOk result (λ text. string_bytes text ≡ EitTexts.eit_json eit) }
{
    let text = format!(in alloc;
        ",\"eit\":{{\"present\":{},\"schedule\":{}}}",
        eit.present, eit.schedule
    )?;
    Ok(text)
}
