//! The BATs in force.
ghost use Rattle.std.specs.Prelude.{◌≡◌, ℕ, IfOk, OnOk, Some, option_map};
ghost use Rattle.ts_si.specs.SiTables.{bat_held};
ghost use Rattle.plug_psi.specs.CurrentTables.{current_in};
ghost use Rattle.plug_psi.specs.LastFound.{found_after, newer};
ghost use Rattle.ts_table_rows.specs.RunReading.{read_run};
ghost use Rattle.ts_table_pages.specs.SiPages.{bat_page};
ghost use Rattle.plug_info_state.specs.BatsInForce.{current_bat_of};
ghost use Rattle.plug_info_state.specs.BatStands.{current_one, kept_bat};

use indexmap::IndexMap;
use std::alloc::{AllocError, Global};
use ts_section::TableRun;
use ts_si::Bat;
use ts_table_rows::TableFault;

/// How many numbers a bouquet can have: a bouquet_id has 16 bits.
pub const BOUQUET_COUNT: u32 = 65_536;

/// The last BAT of each bouquet.
#[derive(Drop)]
pub struct KeptBats {
    bats: IndexMap<u16, Bat>,
}

impl KeptBats {
    ghost use Rattle.std.specs.Prelude.{◌≡◌, ◌<◌, ℕ, None, Some, OnOk, option_map};
    ghost use Rattle.std.specs.Option.{option_copied};
    ghost use Rattle.ts_si.specs.SiTables.{bat_held};
    ghost use Rattle.plug_psi.specs.LastFound.{newer};
    ghost use Rattle.named_services.specs.SdtInForce.{of_extension};
    ghost use Rattle.plug_info_state.specs.BatStands.{kept_bat};

    /// No BAT yet.
    pub fn new(alloc: Global) -> KeptBats
        ensures { (id : ℕ) → kept_bat result id ≡ None }
    {
        KeptBats {
            bats: IndexMap::new(alloc),
        }
    }

    /// Keeps a BAT instead of the one of its bouquet. It needs memory only for a bouquet that had none.
    pub fn keep(&mut self, bat: Bat) -> Result<(), AllocError>
        ensures { OnOk result ((id : ℕ) → kept_bat self.new id ≡ newer (kept_bat self.old id) (of_extension id (Some (bat_held bat)))) }
    {
        let id = bat.bouquet_id;
        self.bats.insert(id, bat)?;
        Ok(())
    }

    /// The BAT of a bouquet, if there is one.
    pub fn of(&self, id: u32) -> Option<&Bat>
        requires { id < BOUQUET_COUNT }
        ensures { option_map bat_held (option_copied result) ≡ kept_bat self.now id }
    {
        self.bats.get(&(id as u16))
    }
}

/// Keeps the tables that are current BATs.
pub fn keep_bats(alloc: Global, kept: &mut KeptBats, tables: &[TableRun]) -> Result<(), AllocError>
    ensures { OnOk result ((id : ℕ) → kept_bat kept.new id ≡ found_after (current_bat_of id) (kept_bat kept.old id) tables.now) }
{
    for table in tables {
        keep_bat(alloc, kept, table)?;
    }
    Ok(())
}

// Keeps the BAT that a table is, if it is a current one.
fn keep_bat(alloc: Global, kept: &mut KeptBats, table: &TableRun) -> Result<(), AllocError>
    ensures { OnOk result ((id : ℕ) → kept_bat kept.new id ≡ newer (kept_bat kept.old id) (current_bat_of id table.now)) }
{
    if let Some(read) = read_current(alloc, table)? {
        kept.keep(read)?;
    }
    Ok(())
}

// The BAT that a table is, if it is a current one.
fn read_current(alloc: Global, table: &TableRun) -> Result<Option<Bat>, AllocError>
    ensures { IfOk result (λ bat. option_map bat_held bat ≡ current_in (read_run bat_page table.now)) }
{
    match Bat::read(alloc, table) {
        Ok(bat) => Ok(current_one(bat)),
        Err(TableFault::Broken { .. }) => Ok(None),
        Err(TableFault::NoMemory) => Err(AllocError),
    }
}

// A BAT, if it is current.
fn current_one(bat: Bat) -> Option<Bat>
    ensures { option_map bat_held result ≡ current_one (bat_held bat) }
{
    if bat.current { Some(bat) } else { None }
}
