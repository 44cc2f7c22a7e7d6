//! The last CAT of a PID.

ghost use Rattle.std.specs.Prelude.{◌≡◌, ℕ, List, false, IfOk, OnOk, option_map};
ghost use Rattle.ts_psi.specs.CatTables.{cat_held};
ghost use Rattle.plug_psi.specs.LastFound.{found_after, newer};
ghost use Rattle.plug_psi.specs.CatInForce.{current_cat};

use crate::current_table::read_current;
use crate::follows_tables::FollowsTables;
use crate::kept::Kept;
use std::alloc::{AllocError, Global};
use ts_packet::Packet;
use ts_psi::Cat;
use ts_section::TableRun;

/// The last CAT that reads and is current, if there is one.
#[derive(Drop)]
pub(crate) struct KeptCat {
    pub(crate) cat: Option<Cat>,
}

impl FollowsTables for KeptCat {
    ghost use Rattle.plug_psi.specs.CatInForce.{current_cat};
    ghost use Rattle.plug_psi.specs.KeptTables.{KeepsCat, TellsFound};

    type Seed = ();

    type Told = Kept;

    ghost stands = { λ seed it pid taken. KeepsCat it pid taken };

    ghost tells = { λ seed pid taken packet told. TellsFound current_cat pid taken packet told };

    fn fresh(_alloc: Global, _seed: &(), _pid: u16) -> Result<KeptCat, AllocError> {
        Ok(KeptCat { cat: None })
    }

    fn take(
        &mut self,
        alloc: Global,
        tables: Vec<TableRun>,
        _packet: &Packet,
    ) -> Result<Kept, AllocError> {
        let came = keep_cats(alloc, &mut self.cat, tables.as_slice())?;
        Ok(Kept { came, tables })
    }
}

/// Keeps the last current CAT among some tables, and returns whether there is one.
fn keep_cats(alloc: Global, cat: &mut Option<Cat>, tables: &[TableRun]) -> Result<bool, AllocError>
    ensures kept { OnOk result (option_map cat_held cat.new ≡ found_after current_cat (option_map cat_held cat.old) tables.now) }
    ensures same { IfOk result (λ came. came ≡ false → cat.new ≡ cat.old) }
{
    let mut came = false;
    for table in tables {
        came = keep_cat(alloc, cat, table, came)?;
    }
    Ok(came)
}

/// Keeps the CAT that a table is, if it is a current one. Returns `came`, or `true` if it is kept.
fn keep_cat(
    alloc: Global,
    cat: &mut Option<Cat>,
    table: &TableRun,
    came: bool,
) -> Result<bool, AllocError>
    ensures kept { OnOk result (option_map cat_held cat.new ≡ newer (option_map cat_held cat.old) (current_cat table.now)) }
    ensures same { IfOk result (λ now. now ≡ false → (came ≡ false) × (cat.new ≡ cat.old)) }
{
    let Some(read) = read_current::<Cat>(alloc, table)? else {
        return Ok(came);
    };
    *cat = Some(read);
    Ok(true)
}
