//! The last PAT of a PID.

ghost use Rattle.std.specs.Prelude.{◌≡◌, ℕ, List, false, IfOk, OnOk, option_map};
ghost use Rattle.ts_psi.specs.PatTables.{pat_held};
ghost use Rattle.plug_psi.specs.LastFound.{found_after, newer};
ghost use Rattle.plug_psi.specs.InForce.{current_pat};

use crate::current_pat::CurrentPat;
use crate::current_table::read_current;
use crate::follows_tables::FollowsTables;
use crate::kept::Kept;
use std::alloc::{AllocError, Global};
use ts_packet::Packet;
use ts_psi::Pat;
use ts_section::TableRun;

impl FollowsTables for CurrentPat {
    ghost use Rattle.plug_psi.specs.InForce.{current_pat};
    ghost use Rattle.plug_psi.specs.KeptTables.{KeepsPat, TellsFound};

    type Seed = ();

    type Told = Kept;

    ghost stands = { λ seed it pid taken. KeepsPat it pid taken };

    ghost tells = { λ seed pid taken packet told. TellsFound current_pat pid taken packet told };

    fn fresh(alloc: Global, _seed: &(), _pid: u16) -> Result<CurrentPat, AllocError> {
        let none = CurrentPat::none(alloc)?;
        Ok(none)
    }

    fn take(
        &mut self,
        alloc: Global,
        tables: Vec<TableRun>,
        _packet: &Packet,
    ) -> Result<Kept, AllocError> {
        let came = keep_pats(alloc, self, tables.as_slice())?;
        Ok(Kept { came, tables })
    }
}

/// Keeps the last current PAT among some tables, and returns whether there is one.
fn keep_pats(alloc: Global, pat: &mut CurrentPat, tables: &[TableRun]) -> Result<bool, AllocError>
    ensures kept { OnOk result (option_map pat_held pat.new ≡ found_after current_pat (option_map pat_held pat.old) tables.now) }
    ensures same { IfOk result (λ came. came ≡ false → pat.new ≡ pat.old) }
{
    let mut came = false;
    for table in tables {
        came = keep_pat(alloc, pat, table, came)?;
    }
    Ok(came)
}

/// Keeps the PAT that a table is, if it is a current one. Returns `came`, or `true` if it is kept.
fn keep_pat(
    alloc: Global,
    pat: &mut CurrentPat,
    table: &TableRun,
    came: bool,
) -> Result<bool, AllocError>
    ensures kept { OnOk result (option_map pat_held pat.new ≡ newer (option_map pat_held pat.old) (current_pat table.now)) }
    ensures same { IfOk result (λ now. now ≡ false → (came ≡ false) × (pat.new ≡ pat.old)) }
{
    let Some(read) = read_current::<Pat>(alloc, table)? else {
        return Ok(came);
    };
    pat.set(read);
    Ok(true)
}
