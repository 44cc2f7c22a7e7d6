//! What is wrong.
ghost use Rattle.std.specs.Prelude.{◌≡◌, IfOk};
ghost use Rattle.std.specs.String.{string_bytes};
ghost use Rattle.monitor_lines.specs.ErrorTexts.{detail_text};
ghost use Rattle.monitor_lines.specs.declared.detail.Detail.TheVariants.{Gap};

use crate::missing::Missing;
use std::alloc::{AllocError, Global};

/// What is wrong: the last part of a line.
#[derive(Clone, Copy, PartialEq, Eq)]
pub enum Detail {
    /// Something is missing, for so many milliseconds.
    Gap(Missing, u128),
    /// A section with this table_id, which does not belong on its PID.
    Table(u8),
    /// A scrambled packet.
    Scrambled,
    /// One on a PID.
    ScrambledOn(u16),
    /// On a PID a continuity counter, and the wanted one.
    Wrong(u16, u8, u8),
    /// A packet on a PID that came too often.
    Repeated(u16),
    /// A packet on a PID.
    OnPid(u16),
    /// A section with this table_id on a PID.
    TableOn(u16, u8),
    /// A step between two PCRs on a PID, in units of the 27 MHz clock.
    Step(u16, u64),
    /// By how many nanoseconds such a step is off.
    Off(u16, u128),
}

impl Detail {
    ghost use Rattle.std.specs.Prelude.{◌≡◌, IfOk};
    ghost use Rattle.std.specs.String.{string_bytes};
    ghost use Rattle.monitor_lines.specs.ErrorTexts.{detail_text};

    /// Its text.
    pub(crate) fn text(self, alloc: Global) -> Result<String, AllocError>
        ensures { IfOk result (λ text. string_bytes text ≡ detail_text self) }
    {
        let text = match self {
            Detail::Gap(missing, milliseconds) => gap_text(alloc, missing, milliseconds)?,
            Detail::Table(table) => format!(in alloc; "table_id {table}")?,
            Detail::Scrambled => String::from_str(alloc, "scrambled")?,
            Detail::ScrambledOn(pid) => format!(in alloc; "pid {pid} scrambled")?,
            Detail::Wrong(pid, counter, wanted) => {
                format!(in alloc; "pid {pid} counter {counter} wanted {wanted}")?
            }
            Detail::Repeated(pid) => format!(in alloc; "pid {pid} repeated")?,
            Detail::OnPid(pid) => format!(in alloc; "pid {pid}")?,
            Detail::TableOn(pid, table) => format!(in alloc; "pid {pid} table_id {table}")?,
            Detail::Step(pid, units) => format!(in alloc; "pid {pid} step {units}")?,
            Detail::Off(pid, nanoseconds) => format!(in alloc; "pid {pid} off {nanoseconds}")?,
        };
        Ok(text)
    }
}

// The text of something that is missing for so many milliseconds.
fn gap_text(alloc: Global, missing: Missing, milliseconds: u128) -> Result<String, AllocError>
    ensures { IfOk result (λ text. string_bytes text ≡ detail_text (Gap missing milliseconds)) }
{
    let missing = missing.text(alloc)?;
    let text = format!(in alloc; "{missing} for {milliseconds} ms")?;
    Ok(text)
}
