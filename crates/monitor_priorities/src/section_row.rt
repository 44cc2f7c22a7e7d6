//! The row of a PID on which some tables may come, of which none has to.
ghost use Rattle.std.specs.Prelude.{◌≡◌, ◌++◌, OnOk};

use crate::telling::tell_tables;
use monitor_lines::{Indicator, MonitorError};
use monitor_tables::{SectionReader, strangers};
use std::alloc::{AllocError, Global};
use ts_demux::other_packets_change_nothing;
use ts_packet::{PID_COUNT, Packet};

/// What is kept of a PID on which only some tables may come: those of EITs and RSTs (ETSI TR 101 290, 5.2.3).
#[derive(Drop)]
pub(crate) struct SectionRow {
    pid: u16,
    indicator: Indicator,
    reader: SectionReader,
    alloc: Global,
}

impl SectionRow {
    ghost use Rattle.std.specs.Prelude.{◌≡◌, ◌<◌, ◌∷◌, ◌++◌, [], ℕ, List, IfOk, OnOk, length};
    ghost use Rattle.ts_packet.specs.declared.cell.Cell.{Cell};
    ghost use Rattle.ts_packet.specs.Cells.{Live};
    ghost use Rattle.monitor_priorities.specs.RowErrors.{stranger_errors};
    ghost use Rattle.monitor_priorities.specs.RowsStand.{IsSectionRow};

    /// No cell was met.
    pub(crate) fn new(
        alloc: Global,
        pid: u16,
        indicator: Indicator,
    ) -> Result<SectionRow, AllocError>
        requires { pid < PID_COUNT }
        ensures { IfOk result (λ row. IsSectionRow row pid indicator []) }
    {
        Ok(SectionRow {
            pid,
            indicator,
            reader: SectionReader::new(alloc, pid)?,
            alloc,
        })
    }

    /// The packet at a position. Its errors are told. After `AllocError` the row is not to be used any more.
    pub(crate) fn meet(
        &mut self,
        at: u64,
        packet: &Packet,
        errors: &mut Vec<MonitorError>,
    ) -> Result<(), AllocError>
        ensures stands { OnOk result ((pid : ℕ) (indicator : _) (history : List Cell) (labels : ℕ) → IsSectionRow self.old pid indicator history
            → IsSectionRow self.new pid indicator (history ++ Live packet.now labels ∷ [])) }
        ensures tells { OnOk result ((pid : ℕ) (indicator : _) (history : List Cell) → IsSectionRow self.old pid indicator history
            → length history ≡ at → errors.new.items ≡ errors.old.items ++ stranger_errors indicator pid history packet.now) }
    {
        // Nearly all packets are on other PIDs.
        if packet.pid() != self.pid {
            // A law, which runs nothing.
            other_packets_change_nothing();
            return Ok(());
        }
        let sections = self.reader.read(packet)?;
        let others = strangers(self.alloc, self.pid, &sections)?;
        tell_tables(errors, at, self.indicator, &others)?;
        Ok(())
    }
}
