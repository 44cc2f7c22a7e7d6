//! What is missing.
use std::alloc::{AllocError, Global};

/// What is missing for too long.
#[derive(Clone, Copy, PartialEq, Eq)]
pub enum Missing {
    /// A section of the PAT.
    Pat,
    /// One of the PMT of a service.
    Pmt(u16),
    /// A packet on a PID.
    Packet(u16),
    /// A PCR on a PID.
    Pcr(u16),
    /// A PTS on a PID.
    Pts(u16),
    /// A section of the CAT.
    Cat,
    /// One of the NIT of the actual network.
    Nit,
    /// One of the SDT of the actual stream.
    Sdt,
    /// The section with this number, 0 or 1, of the EIT present/following of a service.
    Eit(u16, u8),
    /// A TDT.
    Tdt,
}

impl Missing {
    ghost use Rattle.std.specs.Prelude.{◌≡◌, IfOk};
    ghost use Rattle.std.specs.String.{string_bytes};
    ghost use Rattle.monitor_lines.specs.ErrorTexts.{missing_text};

    /// Its text, without for how long.
    pub(crate) fn text(self, alloc: Global) -> Result<String, AllocError>
        ensures { IfOk result (λ text. string_bytes text ≡ missing_text self) }
    {
        let text = match self {
            Missing::Pat => String::from_str(alloc, "no PAT")?,
            Missing::Pmt(service) => format!(in alloc; "no PMT of {service}")?,
            Missing::Packet(pid) => format!(in alloc; "no packet on {pid}")?,
            Missing::Pcr(pid) => format!(in alloc; "no PCR on {pid}")?,
            Missing::Pts(pid) => format!(in alloc; "no PTS on {pid}")?,
            Missing::Cat => String::from_str(alloc, "no CAT")?,
            Missing::Nit => String::from_str(alloc, "no NIT")?,
            Missing::Sdt => String::from_str(alloc, "no SDT")?,
            Missing::Eit(service, n) => format!(in alloc; "no EIT {service} section {n}")?,
            Missing::Tdt => String::from_str(alloc, "no TDT")?,
        };
        Ok(text)
    }
}
