//! The row of EITs.
ghost use Rattle.std.specs.Prelude.{◌≡◌, ◌++◌, OnOk};

use crate::reading::read_on;
use crate::telling::tell_tables;
use monitor_keys::Span;
use monitor_lines::{Indicator, MonitorError};
use monitor_services::EventRow;
use monitor_tables::{SectionReader, strangers};
use std::alloc::{AllocError, Global};
use ts_packet::Packet;

/// The PID of EITs (ETSI EN 300 468, 5.1.3).
const EIT_PID: u16 = 18;

/// What is kept of PID 18: the EITs present/following of the services of the SDT in force, and the tables that may come there.
#[derive(Drop)]
pub(crate) struct EventRows {
    events: EventRow,
    reader: SectionReader,
    alloc: Global,
}

impl EventRows {
    ghost use Rattle.std.specs.Prelude.{◌≡◌, ◌∷◌, ◌++◌, [], ℕ, List, Option, IfOk, OnOk};
    ghost use Rattle.ts_packet.specs.declared.cell.Cell.{Cell};
    ghost use Rattle.ts_packet.specs.Cells.{Live};
    ghost use Rattle.monitor_keys.specs.Keys.{span_on};
    ghost use Rattle.monitor_priorities.specs.RowErrors.{eit_errors};
    ghost use Rattle.monitor_priorities.specs.RowsStand.{HasEvents};

    /// No cell was met.
    pub(crate) fn new(alloc: Global) -> Result<EventRows, AllocError>
        ensures { IfOk result (λ rows. (pcr_pid : Option ℕ) → HasEvents pcr_pid rows []) }
    {
        Ok(EventRows {
            events: EventRow::new(alloc)?,
            reader: SectionReader::new(alloc, EIT_PID)?,
            alloc,
        })
    }

    /// The packet of a span. Its errors are told. After `AllocError` the row is not to be used any more.
    pub(crate) fn meet(
        &mut self,
        span: &Span,
        packet: &Packet,
        errors: &mut Vec<MonitorError>,
    ) -> Result<(), AllocError>
        ensures stands { OnOk result ((pcr_pid : Option ℕ) (history : List Cell) (labels : ℕ) → HasEvents pcr_pid self.old history
            → span.now ≡ span_on pcr_pid history packet.now → HasEvents pcr_pid self.new (history ++ Live packet.now labels ∷ [])) }
        ensures tells { OnOk result ((pcr_pid : Option ℕ) (history : List Cell) → HasEvents pcr_pid self.old history
            → span.now ≡ span_on pcr_pid history packet.now
            → errors.new.items ≡ errors.old.items ++ eit_errors pcr_pid history packet.now) }
    {
        let sections = read_on(self.alloc, &mut self.reader, EIT_PID, packet)?;
        let others = strangers(self.alloc, EIT_PID, &sections)?;
        self.events.meet(span, packet, &sections, errors)?;
        tell_tables(errors, span.at, Indicator::Eit, &others)?;
        Ok(())
    }
}
