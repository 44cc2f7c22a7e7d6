//! The reader of the tables of all PIDs that are watched.
ghost use Rattle.std.specs.Prelude.{◌≡◌, ◌<◌, ◌==◌, ◌∷◌, ◌++◌, ℕ, [], List, IfOk, OnOk, length, true, false, if◌then◌else◌};
ghost use Rattle.plug_tables.specs.TablesRule.{choice_of};

use plug_psi::{ByPid, Changes, InForce, unfollowed_packets_change_nothing};
use plugin_options::{NumberSet, PidSet};
use std::alloc::{AllocError, Global};
use ts_demux::PidTables;
use ts_packet::{NULL_PID, PID_COUNT, Packet};
use ts_section::TableRun;

/// The PIDs that are watched without a list, besides those of the PMTs: PAT and CAT, and NIT, SDT and EIT.
const USUAL_PIDS: [(u64, u64); 2] = [(0, 1), (16, 18)];

/// Reads the tables of all PIDs that are watched.
#[derive(Drop)]
pub struct TableReader {
    pids: PidSet,
    /// Whether the PIDs of the PMTs that the PAT in force names are watched too.
    follows: bool,
    force: InForce,
    readers: ByPid<PidTables>,
    alloc: Global,
}

impl TableReader {
    ghost use Rattle.std.specs.Prelude.{◌≡◌, ◌<◌, ◌∷◌, ◌++◌, ℕ, [], List, true, false, IfOk, IsOk, OnOk};
    ghost use Rattle.ts_packet.specs.Header.{pid_of};
    ghost use Rattle.plug_psi.specs.ForceStands.{StandsFor as IsFed};
    ghost use Rattle.plug_tables.specs.TablesRule.{choice_of};
    ghost use Rattle.plug_tables.specs.WatchedPackets.{is_watched, may_be_read, tables_with};
    ghost use Rattle.plug_tables.specs.TableReaderState.{HasMet, choice_in};

    /// A new reader, which has processed no packet. The PIDs that are watched are those of a list, or the usual ones
    /// if it is empty.
    pub fn new(alloc: Global, list: &NumberSet) -> Result<TableReader, AllocError>
        ensures choice { IfOk result (λ reader. choice_in reader ≡ choice_of list.now) }
        ensures fresh { IfOk result (λ reader. HasMet reader []) }
    {
        Ok(TableReader {
            pids: pids_of(alloc, list)?,
            follows: list.is_empty(),
            force: InForce::new(alloc)?,
            readers: ByPid::new(alloc),
            alloc,
        })
    }

    /// Processes the next packet, of any PID, which has a position, and returns the tables that it completes on its PID, if that is watched.
    /// After `AllocError` it is not to be used any more. A packet that is not read needs no memory, and completes none.
    pub fn meet(&mut self, at: u64, packet: &Packet) -> Result<Vec<TableRun>, AllocError>
        ensures stands { OnOk result ((met : List (List ℕ)) → HasMet self.old met → HasMet self.new (met ++ packet.now ∷ [])) }
        ensures tables { IfOk result (λ tables. (met : List (List ℕ)) → HasMet self.old met
            → tables.items ≡ tables_with (choice_in self.old) met packet.now) }
        ensures choice { choice_in self.new ≡ choice_in self.old }
        ensures quiet { (met : List (List ℕ)) → HasMet self.old met → may_be_read (choice_in self.old) met packet.now ≡ false
            → IfOk result (λ tables. tables.items ≡ []) × IsOk result }
    {
        // A law, which runs nothing.
        unfollowed_packets_change_nothing::<PidTables>();
        self.force.feed(at, packet)?;
        let pid = packet.pid();
        if !self.is_watched(pid) {
            return Ok(Vec::new(self.alloc));
        }
        let tables = self.readers.take(self.alloc, at, &(), (), packet)?;
        Ok(tables)
    }

    /// Adds the watched PIDs on which tables changed without a new version.
    pub fn add_changes(&self, changes: &mut Changes) -> Result<(), AllocError> {
        self.readers.add_changes(changes)
    }

    // Whether the packets of a PID are watched now.
    fn is_watched(&self, pid: u16) -> bool
        requires { pid < PID_COUNT }
        ensures tells { (fed : List (List ℕ)) → IsFed self.now.force fed → result ≡ is_watched (choice_in self.now) pid fed }
        ensures in_range { result ≡ true → pid < NULL_PID }
    {
        (self.pids.has(pid) || (self.follows && self.force.names(pid))) && pid != NULL_PID
    }
}

// The PIDs of a list, or the usual ones if it is empty.
fn pids_of(alloc: Global, list: &NumberSet) -> Result<PidSet, AllocError>
    ensures { IfOk result (λ set. set ≡ (choice_of list.now).listed) }
{
    if !list.is_empty() {
        let set = PidSet::of(alloc, list)?;
        return Ok(set);
    }
    let usual = NumberSet::of(Vec::from_slice(alloc, &USUAL_PIDS)?);
    let set = PidSet::of(alloc, &usual)?;
    Ok(set)
}
