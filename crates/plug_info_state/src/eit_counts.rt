//! How many EIT sections each service has.
ghost use Rattle.std.specs.Prelude.{◌≡◌, ℕ, List, OnOk};
ghost use Rattle.ts_demux.specs.SectionsOfPid.{sections_of_pid};
ghost use Rattle.plug_info_state.specs.EitSections.{is_of, is_present, is_schedule};
ghost use Rattle.plug_info_state.specs.EitStands.{Counts, count_of, counted};

use crate::number_counts::NumberCounts;
use plug_info_texts::EitNumbers;
use std::alloc::{AllocError, Global};
use ts_demux::{Demux, other_packets_change_nothing};
use ts_packet::Packet;
use ts_section::Section;

/// The PID of EITs (ETSI EN 300 468, 5.1.3).
const EIT_PID: u16 = 18;

/// The table_id of the present and the following event of the actual transport stream (ETSI EN 300 468, 5.1.3).
const PRESENT: u8 = 0x4E;

/// The first and the last table_id of its schedule.
const FIRST_SCHEDULE: u8 = 0x50;

const LAST_SCHEDULE: u8 = 0x5F;

/// The EIT sections of each service of the actual transport stream, by its number.
#[derive(Drop)]
pub struct EitCounts {
    demux: Demux,
    present: NumberCounts,
    schedule: NumberCounts,
}

impl EitCounts {
    ghost use Rattle.std.specs.Prelude.{◌≡◌, ◌==◌, ◌++◌, ◌∷◌, [], ℕ, List, IfOk, IsOk, OnOk, false};
    ghost use Rattle.ts_packet.specs.Header.{pid_of};
    ghost use Rattle.plug_info_state.specs.EitSections.{eit_of};
    ghost use Rattle.plug_info_state.specs.EitStands.{HasFedEit};

    /// No packet was fed.
    pub fn new(alloc: Global) -> Result<EitCounts, AllocError>
        ensures { IfOk result (λ eit. HasFedEit eit []) }
    {
        let demux = Demux::new(alloc, EIT_PID)?;
        Ok(EitCounts {
            demux,
            present: NumberCounts::new(alloc),
            schedule: NumberCounts::new(alloc),
        })
    }

    /// Takes the next packet, of any PID. It needs memory only for packets on PID 18. After `AllocError` it is not to be used
    /// any more.
    #[inline]
    pub fn feed(&mut self, packet: &Packet) -> Result<(), AllocError>
        ensures fed { OnOk result ((fed : List (List ℕ)) → HasFedEit self.old fed → HasFedEit self.new (fed ++ packet.now ∷ [])) }
        ensures quiet { (pid_of packet.now == EIT_PID) ≡ false → IsOk result }
    {
        other_packets_change_nothing();
        // Nearly all packets are on other PIDs.
        if packet.pid() != EIT_PID {
            return Ok(());
        }
        self.demux.feed(packet)?;
        count_waiting(&mut self.demux, &mut self.present, &mut self.schedule)?;
        Ok(())
    }

    /// The numbers of a service.
    pub fn of(&self, id: u16) -> EitNumbers
        ensures { (fed : List (List ℕ)) → HasFedEit self.now fed → result ≡ eit_of id fed }
    {
        EitNumbers {
            present: self.present.of(id),
            schedule: self.schedule.of(id),
        }
    }
}

// Counts the sections that wait.
fn count_waiting(
    demux: &mut Demux,
    present: &mut NumberCounts,
    schedule: &mut NumberCounts,
) -> Result<(), AllocError>
    ensures { OnOk result ((fed given : List (List ℕ)) → Counts demux.old present.old schedule.old fed given
        → Counts demux.new present.new schedule.new fed (sections_of_pid EIT_PID fed)) }
{
    while let Some(section) = demux.next_section() {
        count_section(present, schedule, &section)?;
    }
    Ok(())
}

// Counts a section by its service, if it is one of the actual transport stream.
fn count_section(
    present: &mut NumberCounts,
    schedule: &mut NumberCounts,
    section: &Section,
) -> Result<(), AllocError>
    ensures present { OnOk result ((id : ℕ) → count_of present.new id ≡ counted (is_of is_present id section.now) (count_of present.old id)) }
    ensures schedule { OnOk result ((id : ℕ) → count_of schedule.new id ≡ counted (is_of is_schedule id section.now) (count_of schedule.old id)) }
{
    let Some(head) = section.head() else {
        return Ok(());
    };
    present.add_if(is_present(head.table_id), head.extension)?;
    schedule.add_if(is_schedule(head.table_id), head.extension)?;
    Ok(())
}

// Whether a table_id is that of the present and the following event.
fn is_present(table_id: u8) -> bool
    ensures { result ≡ is_present table_id }
{
    table_id == PRESENT
}

// Whether a table_id is one of the schedule.
fn is_schedule(table_id: u8) -> bool
    ensures { result ≡ is_schedule table_id }
{
    FIRST_SCHEDULE <= table_id && table_id <= LAST_SCHEDULE
}
