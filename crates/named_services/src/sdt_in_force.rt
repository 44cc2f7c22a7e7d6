//! The SDT in force.

ghost use Rattle.std.specs.Prelude.{◌≡◌, ℕ, IfOk, OnOk, option_map};
ghost use Rattle.ts_si.specs.SiTables.{sdt_held};
ghost use Rattle.plug_psi.specs.LastFound.{found_after, newer};
ghost use Rattle.named_services.specs.SdtInForce.{current_sdt, current_sdt_of};
ghost use Rattle.named_services.specs.SdtStands.{kept_with, last_kept};

use crate::kept_sdts::KeptSdts;
use plug_psi::read_current;
use std::alloc::{AllocError, Global};
use ts_demux::{
    ChangedTable, PidTables, other_packets_complete_nothing, uncounted_packets_change_nothing,
};
use ts_packet::Packet;
use ts_section::TableRun;
use ts_si::Sdt;

/// The PID of SDTs (ETSI EN 300 468, 5.1.3).
const SDT_PID: u16 = 17;

/// The SDTs of which one is in force, after all packets that were fed. Their room grows by the transport_stream_ids that come
/// on PID 17 with table_id 0x42.
#[derive(Drop)]
pub struct SdtInForce {
    kept: KeptSdts,
    tables: PidTables,
    alloc: Global,
}

impl SdtInForce {
    ghost use Rattle.std.specs.Prelude.{◌≡◌, ◌==◌, ◌++◌, ◌∷◌, [], ℕ, List, IfOk, IsOk, OnOk, false, length, option_map};
    ghost use Rattle.std.specs.Option.{option_copied};
    ghost use Rattle.ts_si.specs.SiTables.{sdt_held};
    ghost use Rattle.ts_packet.specs.Header.{pid_of};
    ghost use Rattle.ts_demux.specs.TablesOn.{Completes};
    ghost use Rattle.named_services.specs.SdtInForce.{sdt_for};
    ghost use Rattle.named_services.specs.SdtStands.{HasFedSdt};

    /// No packet was fed.
    pub fn new(alloc: Global) -> Result<SdtInForce, AllocError>
        ensures { IfOk result (λ sdt. HasFedSdt sdt []) }
    {
        let tables = PidTables::new(alloc, SDT_PID)?;
        Ok(SdtInForce {
            kept: KeptSdts::new(alloc),
            tables,
            alloc,
        })
    }

    /// Takes the next packet, of any PID, which has a position, and returns the tables that it completes on PID 17, of any
    /// kind. After `AllocError` it is not to be used any more.
    #[inline]
    pub fn feed(&mut self, at: u64, packet: &Packet) -> Result<Vec<TableRun>, AllocError>
        ensures stands { OnOk result ((fed : List (List ℕ)) → HasFedSdt self.old fed → HasFedSdt self.new (fed ++ packet.now ∷ [])) }
        ensures completes { IfOk result (λ tables. (fed : List (List ℕ)) → HasFedSdt self.old fed → Completes 17 fed packet.now tables.items) }
        ensures none { IfOk result (λ tables. (pid_of packet.now == 17) ≡ false → length tables.items ≡ 0) }
        ensures quiet { (pid_of packet.now == 17) ≡ false → IsOk result }
    {
        // Laws, which run nothing.
        uncounted_packets_change_nothing();
        other_packets_complete_nothing();
        // Nearly all packets are on other PIDs.
        if packet.pid() != SDT_PID {
            return Ok(Vec::new(self.alloc));
        }
        let tables = self.tables.take(at, packet)?;
        keep_sdts(self.alloc, &mut self.kept, &tables)?;
        Ok(tables)
    }

    /// The SDT in force, given the transport_stream_id of the PAT in force: the last one with this number, and where
    /// there is none the last one.
    pub fn in_force(&self, stream_id: Option<u16>) -> Option<&Sdt>
        ensures { (fed : List (List ℕ)) → HasFedSdt self.now fed → option_map sdt_held (option_copied result) ≡ sdt_for stream_id fed }
    {
        self.kept.chosen(stream_id)
    }

    /// The first table on PID 17 that changed without a new version.
    pub fn changed(&self) -> Option<ChangedTable> {
        self.tables.changed()
    }
}

// Keeps the tables that are current SDTs of the actual transport stream.
fn keep_sdts(alloc: Global, kept: &mut KeptSdts, tables: &[TableRun]) -> Result<(), AllocError>
    ensures each { OnOk result ((id : ℕ) → kept_with kept.new id ≡ found_after (current_sdt_of id) (kept_with kept.old id) tables.now) }
    ensures last { OnOk result (last_kept kept.new ≡ found_after current_sdt (last_kept kept.old) tables.now) }
{
    for table in tables {
        keep_sdt(alloc, kept, table)?;
    }
    Ok(())
}

// Keeps the SDT that a table is, if it is a current one of the actual transport stream.
fn keep_sdt(alloc: Global, kept: &mut KeptSdts, table: &TableRun) -> Result<(), AllocError>
    ensures each { OnOk result ((id : ℕ) → kept_with kept.new id ≡ newer (kept_with kept.old id) (current_sdt_of id table.now)) }
    ensures last { OnOk result (last_kept kept.new ≡ newer (last_kept kept.old) (current_sdt table.now)) }
{
    if let Some(read) = read_actual(alloc, table)? {
        kept.keep(read)?;
    }
    Ok(())
}

// The SDT of the actual transport stream that a table is, if it is a current one.
fn read_actual(alloc: Global, table: &TableRun) -> Result<Option<Sdt>, AllocError>
    ensures { IfOk result (λ sdt. option_map sdt_held sdt ≡ current_sdt table.now) }
{
    let Some(sdt) = read_current::<Sdt>(alloc, table)? else {
        return Ok(None);
    };
    if sdt.actual { Ok(Some(sdt)) } else { Ok(None) }
}
