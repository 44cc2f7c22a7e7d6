//! The last SDT of each transport stream.
use indexmap::IndexMap;
use std::alloc::{AllocError, Global};
use ts_si::Sdt;

/// The last SDT of each transport_stream_id, and which of them came last.
#[derive(Drop)]
pub struct KeptSdts {
    sdts: IndexMap<u16, Sdt>,
    last: Option<u16>,
}

impl KeptSdts {
    ghost use Rattle.std.specs.Prelude.{◌≡◌, ℕ, None, Some, OnOk, option_map};
    ghost use Rattle.std.specs.Option.{option_copied, option_or};
    ghost use Rattle.ts_si.specs.SiTables.{sdt_held};
    ghost use Rattle.plug_psi.specs.LastFound.{newer};
    ghost use Rattle.named_services.specs.SdtInForce.{of_extension};
    ghost use Rattle.named_services.specs.SdtStands.{kept_at, kept_with, last_kept};

    /// No SDT yet.
    pub fn new(alloc: Global) -> KeptSdts
        ensures each { (id : ℕ) → kept_with result id ≡ None }
        ensures last { last_kept result ≡ None }
    {
        KeptSdts {
            sdts: IndexMap::new(alloc),
            last: None,
        }
    }

    /// Keeps an SDT in place of the one with its transport_stream_id.
    pub fn keep(&mut self, sdt: Sdt) -> Result<(), AllocError>
        ensures each { OnOk result ((id : ℕ) → kept_with self.new id ≡ newer (kept_with self.old id) (of_extension id (Some (sdt_held sdt)))) }
        ensures last { OnOk result (last_kept self.new ≡ Some (sdt_held sdt)) }
    {
        let id = sdt.stream_id;
        self.sdts.insert(id, sdt)?;
        self.last = Some(id);
        Ok(())
    }

    // The SDT with a transport_stream_id, if there is one.
    fn with(&self, id: Option<u16>) -> Option<&Sdt>
        ensures { option_map sdt_held (option_copied result) ≡ kept_at self.now id }
    {
        match id {
            Some(id) => self.sdts.get(&id),
            None => None,
        }
    }

    /// The SDT with a transport_stream_id; where there is none, or no such number, the last one.
    pub fn chosen(&self, id: Option<u16>) -> Option<&Sdt>
        ensures { option_map sdt_held (option_copied result) ≡ option_or (kept_at self.now id) (last_kept self.now) }
    {
        match self.with(id) {
            Some(sdt) => Some(sdt),
            None => self.with(self.last),
        }
    }
}
