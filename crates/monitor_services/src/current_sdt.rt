//! The SDT in force.
ghost use Rattle.std.specs.Prelude.{◌≡◌, ℕ, List, IfOk, OnOk, option_map};
ghost use Rattle.ts_si.specs.SiTables.{sdt_held};
ghost use Rattle.plug_psi.specs.LastFound.{found_after, newer};
ghost use Rattle.monitor_services.specs.CurrentSdt.{current_sdt, of_actual};

use plug_psi::read_current;
use std::alloc::{AllocError, Global};
use ts_demux::{PidTables, other_packets_complete_nothing, uncounted_packets_change_nothing};
use ts_packet::Packet;
use ts_section::TableRun;
use ts_si::Sdt;

/// The PID of the SDT (ETSI EN 300 468, 5.1.3).
pub(crate) const SDT_PID: u16 = 17;

/// The SDT in force of the actual transport stream, after all packets that were fed.
#[derive(Drop)]
pub struct CurrentSdt {
    sdt: Option<Sdt>,
    tables: PidTables,
    alloc: Global,
}

impl CurrentSdt {
    ghost use Rattle.std.specs.Prelude.{◌≡◌, ◌++◌, ◌∷◌, [], ℕ, List, IfOk, OnOk, option_map};
    ghost use Rattle.std.specs.Option.{option_copied};
    ghost use Rattle.ts_si.specs.SiTables.{sdt_held};
    ghost use Rattle.monitor_services.specs.CurrentSdt.{HasFedSdt, last_sdt};

    /// No packet was fed.
    pub fn new(alloc: Global) -> Result<CurrentSdt, AllocError>
        ensures { IfOk result (λ kept. HasFedSdt kept []) }
    {
        let tables = PidTables::new(alloc, SDT_PID)?;
        Ok(CurrentSdt {
            sdt: None,
            tables,
            alloc,
        })
    }

    /// Takes the next packet, of any PID, which has a position. After `AllocError` it is not to be used any more.
    #[inline]
    pub fn feed(&mut self, at: u64, packet: &Packet) -> Result<(), AllocError>
        ensures { OnOk result ((fed : List (List ℕ)) → HasFedSdt self.old fed → HasFedSdt self.new (fed ++ packet.now ∷ [])) }
    {
        // Laws, which run nothing.
        uncounted_packets_change_nothing();
        other_packets_complete_nothing();
        // Nearly all packets are on other PIDs.
        if packet.pid() != SDT_PID {
            return Ok(());
        }
        let tables = self.tables.take(at, packet)?;
        keep_sdts(self.alloc, &mut self.sdt, &tables)?;
        Ok(())
    }

    /// The SDT, if there is one.
    pub fn sdt(&self) -> Option<&Sdt>
        ensures { (fed : List (List ℕ)) → HasFedSdt self.now fed → option_map sdt_held (option_copied result) ≡ last_sdt fed }
    {
        self.sdt.as_ref()
    }
}

// Keeps the last of the tables that is a current SDT of the actual transport stream, if one is.
fn keep_sdts(alloc: Global, sdt: &mut Option<Sdt>, tables: &[TableRun]) -> Result<(), AllocError>
    ensures { OnOk result (option_map sdt_held sdt.new ≡ found_after current_sdt (option_map sdt_held sdt.old) tables.now) }
{
    for table in tables {
        keep_sdt(alloc, sdt, table)?;
    }
    Ok(())
}

// Keeps the SDT that a table is, if it is one.
fn keep_sdt(alloc: Global, sdt: &mut Option<Sdt>, table: &TableRun) -> Result<(), AllocError>
    ensures { OnOk result (option_map sdt_held sdt.new ≡ newer (option_map sdt_held sdt.old) (current_sdt table.now)) }
{
    let Some(read) = read_current::<Sdt>(alloc, table)? else {
        return Ok(());
    };
    if read.actual {
        *sdt = Some(read);
    }
    Ok(())
}
