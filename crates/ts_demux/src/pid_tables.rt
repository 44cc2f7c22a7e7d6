//! The tables of one PID.

ghost use Rattle.std.specs.Prelude.{◌≡◌, ◌∷◌, ◌++◌, ℕ, [], List, true, IfOk, OnOk, OnErr, IsErr};
ghost use Rattle.std.specs.Option.{option_to_list};
ghost use Rattle.ts_demux.specs.SectionsOfPid.{sections_of_pid};
ghost use Rattle.ts_demux.specs.Tables.{tables_of};
ghost use Rattle.ts_demux.specs.PidTables.{Holds};

use crate::assembly::Assembly;
use crate::changed_table::ChangedTable;
use crate::demux::Demux;
use crate::failure_latch::FailureLatch;
use std::alloc::{AllocError, Global};
use ts_packet::{PID_COUNT, Packet};
use ts_section::TableRun;

/// Returns the tables of one PID, each with the packet that completes it.
///
/// It keeps at most one unfinished section, and for each key the sections of a table that is not complete.
#[derive(Drop)]
pub struct PidTables {
    demux: Demux,
    assembly: Assembly,
    failed: FailureLatch,
    alloc: Global,
}

impl PidTables {
    ghost use Rattle.std.specs.Prelude.{◌≡◌, ◌<◌, ◌∷◌, ◌++◌, ℕ, [], List, true, IfOk, OnOk, OnErr, IsErr};
    ghost use Rattle.ts_demux.specs.TablesOn.{Completes};
    ghost use Rattle.ts_demux.specs.PidTables.{StandsFor, has_failed};

    /// No packet was processed.
    pub fn new(alloc: Global, pid: u16) -> Result<PidTables, AllocError>
        requires { pid < PID_COUNT }
        ensures { IfOk result (λ tables. StandsFor tables pid []) }
    {
        let assembly = Assembly::new(alloc)?;
        // The largest value comes last: nothing can fail while it is held.
        let demux = Demux::new(alloc, pid)?;
        Ok(PidTables {
            demux,
            assembly,
            failed: FailureLatch::unset(),
            alloc,
        })
    }

    /// Processes the next packet, of any PID, which has a position, and returns the tables that it completes, in their
    /// order. After `AllocError` every later call returns `AllocError`.
    pub fn take(&mut self, at: u64, packet: &Packet) -> Result<Vec<TableRun>, AllocError>
        ensures stands { OnOk result ((pid : ℕ) (taken : List (List ℕ)) → StandsFor self.old pid taken
            → StandsFor self.new pid (taken ++ packet.now ∷ [])) }
        ensures completes { IfOk result (λ tables. (pid : ℕ) (taken : List (List ℕ)) → StandsFor self.old pid taken
            → Completes pid taken packet.now tables.items) }
        ensures spent { OnErr result (has_failed self.new ≡ true) }
        ensures stays_spent { has_failed self.old ≡ true → IsErr result }
    {
        self.failed.check()?;
        let answer = self.advance(at, packet);
        let tables = self.failed.note(answer)?;
        Ok(tables)
    }

    /// The first table that changed without a new version: a section of it came with other contents than the section of
    /// its number before it.
    pub fn changed(&self) -> Option<ChangedTable> {
        self.assembly.changed()
    }

    /// Processes the next packet, unless an earlier call ran out of memory.
    fn advance(&mut self, at: u64, packet: &Packet) -> Result<Vec<TableRun>, AllocError>
        ensures stands { OnOk result ((pid : ℕ) (taken : List (List ℕ)) → StandsFor self.old pid taken
            → StandsFor self.new pid (taken ++ packet.now ∷ [])) }
        ensures completes { IfOk result (λ tables. (pid : ℕ) (taken : List (List ℕ)) → StandsFor self.old pid taken
            → Completes pid taken packet.now tables.items) }
        ensures same_failed { has_failed self.new ≡ has_failed self.old }
    {
        self.demux.feed(packet)?;
        let tables = take_waiting(self.alloc, at, &mut self.demux, &mut self.assembly)?;
        Ok(tables)
    }
}

/// Processes the sections that wait, and returns the tables that they complete.
fn take_waiting(
    alloc: Global,
    at: u64,
    demux: &mut Demux,
    assembly: &mut Assembly,
) -> Result<Vec<TableRun>, AllocError>
    ensures stands { OnOk result ((pid : ℕ) (taken given : List (List ℕ)) → Holds demux.old assembly.old pid taken given
        → Holds demux.new assembly.new pid taken (sections_of_pid pid taken)) }
    ensures tables { IfOk result (λ tables. (pid : ℕ) (taken given : List (List ℕ)) → Holds demux.old assembly.old pid taken given
        → tables_of (sections_of_pid pid taken) ≡ tables_of given ++ tables.items) }
{
    let mut tables = Vec::new(alloc);
    while let Some(section) = demux.next_section() {
        let table = assembly.add(at, section)?;
        push_table(&mut tables, table)?;
    }
    Ok(tables)
}

/// Appends a table, if there is one.
fn push_table(tables: &mut Vec<TableRun>, table: Option<TableRun>) -> Result<(), AllocError>
    ensures { OnOk result (tables.new.items ≡ tables.old.items ++ option_to_list table) }
{
    if let Some(table) = table {
        tables.push(table)?;
    }
    Ok(())
}
