//! The CAT in force.
ghost use Rattle.std.specs.Prelude.{◌≡◌, ◌++◌, ◌∷◌, [], ℕ, List, IfOk, OnOk, fold, option_map};
ghost use Rattle.ts_psi.specs.CatTables.{cat_held};
ghost use Rattle.plug_psi.specs.LastFound.{newer};
ghost use Rattle.plug_psi.specs.CatInForce.{current_cat};

use plug_psi::{Changes, read_current};
use std::alloc::{AllocError, Global};
use ts_demux::{PidTables, other_packets_complete_nothing, uncounted_packets_change_nothing};
use ts_packet::Packet;
use ts_psi::Cat;
use ts_section::TableRun;

/// The PID of the CAT (ISO/IEC 13818-1, 2.4.4.6).
const CAT_PID: u16 = 1;

/// The CAT in force after all packets that were fed.
#[derive(Drop)]
pub struct CatInForce {
    /// The last current CAT, if there was one.
    pub cat: Option<Cat>,
    tables: PidTables,
    alloc: Global,
}

impl CatInForce {
    ghost use Rattle.std.specs.Prelude.{◌≡◌, ◌++◌, ◌∷◌, [], ℕ, List, IfOk, OnOk};
    ghost use Rattle.plug_info_state.specs.CatStands.{HasFedCat};

    /// No packet was fed.
    pub fn new(alloc: Global) -> Result<CatInForce, AllocError>
        ensures { IfOk result (λ cat. HasFedCat cat []) }
    {
        let tables = PidTables::new(alloc, CAT_PID)?;
        Ok(CatInForce {
            cat: None,
            tables,
            alloc,
        })
    }

    /// Takes the next packet, of any PID, which has a position. After `AllocError` it is not to be used any more.
    #[inline]
    pub fn feed(&mut self, at: u64, packet: &Packet) -> Result<(), AllocError>
        ensures { OnOk result ((fed : List (List ℕ)) → HasFedCat self.old fed → HasFedCat self.new (fed ++ packet.now ∷ [])) }
    {
        uncounted_packets_change_nothing();
        other_packets_complete_nothing();
        // Nearly all packets are on other PIDs.
        if packet.pid() != CAT_PID {
            return Ok(());
        }
        let tables = self.tables.take(at, packet)?;
        keep_cats(self.alloc, &mut self.cat, &tables)?;
        Ok(())
    }

    /// Adds the PID of the CAT, if a table changed there without a new version.
    pub fn add_changes(&self, changes: &mut Changes) -> Result<(), AllocError> {
        changes.add(CAT_PID, self.tables.changed())
    }
}

// Keeps the last of the tables that is a current CAT, if there is one.
fn keep_cats(alloc: Global, cat: &mut Option<Cat>, tables: &[TableRun]) -> Result<(), AllocError>
    ensures { OnOk result (option_map cat_held cat.new
        ≡ fold (λ old table. newer old (current_cat table)) (option_map cat_held cat.old) tables.now) }
{
    for table in tables {
        keep_cat(alloc, cat, table)?;
    }
    Ok(())
}

// Keeps the CAT that a table is, if it is a current one.
fn keep_cat(alloc: Global, cat: &mut Option<Cat>, table: &TableRun) -> Result<(), AllocError>
    ensures { OnOk result (option_map cat_held cat.new ≡ newer (option_map cat_held cat.old) (current_cat table.now)) }
{
    if let Some(read) = read_current::<Cat>(alloc, table)? {
        *cat = Some(read);
    }
    Ok(())
}
