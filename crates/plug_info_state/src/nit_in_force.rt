//! The NIT in force of the actual network.
ghost use Rattle.std.specs.Prelude.{◌≡◌, ℕ, IfOk, OnOk, option_map};
ghost use Rattle.ts_si.specs.SiTables.{nit_held};
ghost use Rattle.plug_psi.specs.LastFound.{found_after, newer};
ghost use Rattle.plug_info_state.specs.NitInForce.{current_nit};
ghost use Rattle.plug_info_state.specs.NitStands.{actual_one};

use plug_psi::Changes;
use std::alloc::{AllocError, Global};
use ts_demux::{PidTables, other_packets_complete_nothing, uncounted_packets_change_nothing};
use ts_packet::Packet;
use ts_section::TableRun;
use ts_si::Nit;
use ts_table_rows::TableFault;

/// The PID of NITs (ETSI EN 300 468, 5.1.3).
const NIT_PID: u16 = 16;

/// The NIT in force of the actual network after all packets that were fed.
#[derive(Drop)]
pub struct NitInForce {
    nit: Option<Nit>,
    tables: PidTables,
    alloc: Global,
}

impl NitInForce {
    ghost use Rattle.std.specs.Prelude.{◌≡◌, ◌==◌, ◌++◌, ◌∷◌, [], ℕ, List, IfOk, IsOk, OnOk, false, option_map};
    ghost use Rattle.std.specs.Option.{option_copied};
    ghost use Rattle.ts_packet.specs.Header.{pid_of};
    ghost use Rattle.ts_si.specs.SiTables.{nit_held};
    ghost use Rattle.plug_info_state.specs.NitInForce.{nit_of};
    ghost use Rattle.plug_info_state.specs.NitStands.{HasFedNit};

    /// No packet was fed.
    pub fn new(alloc: Global) -> Result<NitInForce, AllocError>
        ensures { IfOk result (λ nit. HasFedNit nit []) }
    {
        let tables = PidTables::new(alloc, NIT_PID)?;
        Ok(NitInForce {
            nit: None,
            tables,
            alloc,
        })
    }

    /// Takes the next packet, of any PID, which has a position. It needs memory only for packets on PID 16. After
    /// `AllocError` it is not to be used any more.
    #[inline]
    pub fn feed(&mut self, at: u64, packet: &Packet) -> Result<(), AllocError>
        ensures fed { OnOk result ((fed : List (List ℕ)) → HasFedNit self.old fed → HasFedNit self.new (fed ++ packet.now ∷ [])) }
        ensures quiet { (pid_of packet.now == NIT_PID) ≡ false → IsOk result }
    {
        uncounted_packets_change_nothing();
        other_packets_complete_nothing();
        // Nearly all packets are on other PIDs.
        if packet.pid() != NIT_PID {
            return Ok(());
        }
        let tables = self.tables.take(at, packet)?;
        keep_nits(self.alloc, &mut self.nit, &tables)?;
        Ok(())
    }

    /// Adds the PID of NITs, if a table changed there without a new version.
    pub fn add_changes(&self, changes: &mut Changes) -> Result<(), AllocError> {
        changes.add(NIT_PID, self.tables.changed())
    }

    /// The NIT in force, if there is one.
    pub fn in_force(&self) -> Option<&Nit>
        ensures { (fed : List (List ℕ)) → HasFedNit self.now fed → option_map nit_held (option_copied result) ≡ nit_of fed }
    {
        self.nit.as_ref()
    }
}

// Keeps the last of the tables that is a current NIT of the actual network, if there is one.
fn keep_nits(alloc: Global, nit: &mut Option<Nit>, tables: &[TableRun]) -> Result<(), AllocError>
    ensures { OnOk result (option_map nit_held nit.new ≡ found_after current_nit (option_map nit_held nit.old) tables.now) }
{
    for table in tables {
        keep_nit(alloc, nit, table)?;
    }
    Ok(())
}

// Keeps the NIT that a table is, if it is a current one of the actual network.
fn keep_nit(alloc: Global, nit: &mut Option<Nit>, table: &TableRun) -> Result<(), AllocError>
    ensures { OnOk result (option_map nit_held nit.new ≡ newer (option_map nit_held nit.old) (current_nit table.now)) }
{
    if let Some(read) = read_current(alloc, table)? {
        *nit = Some(read);
    }
    Ok(())
}

// The NIT of the actual network that a table is, if it is a current one.
fn read_current(alloc: Global, table: &TableRun) -> Result<Option<Nit>, AllocError>
    ensures { IfOk result (λ nit. option_map nit_held nit ≡ current_nit table.now) }
{
    match Nit::read(alloc, table) {
        Ok(nit) => Ok(current_actual(nit)),
        Err(TableFault::Broken { .. }) => Ok(None),
        Err(TableFault::NoMemory) => Err(AllocError),
    }
}

// A NIT, if it is current and of the actual network.
fn current_actual(nit: Nit) -> Option<Nit>
    ensures { option_map nit_held result ≡ actual_one (nit_held nit) }
{
    if nit.current && nit.actual {
        Some(nit)
    } else {
        None
    }
}
