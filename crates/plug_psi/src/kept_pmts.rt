//! The last PMT of each service on a PID.

ghost use Rattle.std.specs.Prelude.{◌≡◌, ℕ, List, false, IfOk, OnOk, nat_eq, option_map};
ghost use Rattle.indexmap.specs.IndexMap.{get};
ghost use Rattle.ts_psi.specs.PsiTables.{pmt_held};
ghost use Rattle.plug_psi.specs.LastFound.{found_after, newer};
ghost use Rattle.plug_psi.specs.InForce.{current_pmt};

use crate::current_table::read_current;
use crate::follows_tables::FollowsTables;
use crate::kept::Kept;
use indexmap::IndexMap;
use std::alloc::{AllocError, Global};
use ts_packet::Packet;
use ts_psi::Pmt;
use ts_section::TableRun;

/// The last PMT of each service.
pub(crate) type Pmts = IndexMap<u16, Pmt>;

/// The last PMT of each service that reads and is current.
#[derive(Drop)]
pub(crate) struct KeptPmts {
    pub(crate) pmts: Pmts,
}

impl FollowsTables for KeptPmts {
    ghost use Rattle.plug_psi.specs.KeptTables.{KeepsPmts, TellsPmts};

    type Seed = ();

    type Told = Kept;

    ghost stands = { λ seed it pid taken. KeepsPmts it pid taken };

    ghost tells = { λ seed pid taken packet told. TellsPmts pid taken packet told };

    fn fresh(alloc: Global, _seed: &(), _pid: u16) -> Result<KeptPmts, AllocError> {
        Ok(KeptPmts {
            pmts: IndexMap::new(alloc),
        })
    }

    fn take(
        &mut self,
        alloc: Global,
        tables: Vec<TableRun>,
        _packet: &Packet,
    ) -> Result<Kept, AllocError> {
        let came = keep_pmts(alloc, &mut self.pmts, tables.as_slice())?;
        Ok(Kept { came, tables })
    }
}

/// Keeps the current PMTs among some tables, each in place of the one of its service, and returns whether there is one.
fn keep_pmts(alloc: Global, pmts: &mut Pmts, tables: &[TableRun]) -> Result<bool, AllocError>
    ensures kept { OnOk result ((service : ℕ) → option_map pmt_held (get nat_eq pmts.new service)
        ≡ found_after (current_pmt service) (option_map pmt_held (get nat_eq pmts.old service)) tables.now) }
    ensures same { IfOk result (λ came. came ≡ false → pmts.new.entries ≡ pmts.old.entries) }
{
    let mut came = false;
    for table in tables {
        came = keep_pmt(alloc, pmts, table, came)?;
    }
    Ok(came)
}

/// Keeps the PMT that a table is, if it is a current one, in place of the one of its service. Returns `came`, or `true` if
/// it is kept.
fn keep_pmt(
    alloc: Global,
    pmts: &mut Pmts,
    table: &TableRun,
    came: bool,
) -> Result<bool, AllocError>
    ensures kept { OnOk result ((service : ℕ) → option_map pmt_held (get nat_eq pmts.new service)
        ≡ newer (option_map pmt_held (get nat_eq pmts.old service)) (current_pmt service table.now)) }
    ensures same { IfOk result (λ now. now ≡ false → (came ≡ false) × (pmts.new.entries ≡ pmts.old.entries)) }
{
    let Some(pmt) = read_current::<Pmt>(alloc, table)? else {
        return Ok(came);
    };
    pmts.insert(pmt.service_id, pmt)?;
    Ok(true)
}
