//! The editor of the tables of one PID, with what reads them.

ghost use Rattle.std.specs.Prelude.{◌≡◌, ℕ, List};

use crate::edited_packet::EditedPacket;
use crate::service_table_edit::ServiceTableEdit;
use plug_psi::{CycleEditor, Follows, SeesChanges};
use std::alloc::{AllocError, Global};
use ts_demux::{ChangedTable, PidTables};
use ts_packet::Packet;

/// Edits the tables of one PID, and knows whether one came that the edit alters.
#[derive(Drop)]
pub struct TableEditor<E: ServiceTableEdit> {
    pub(crate) tables: PidTables,
    pub(crate) cycles: CycleEditor<E>,
    /// Whether a table came that the edit alters.
    pub(crate) altered: bool,
}

impl<E: ServiceTableEdit> Follows for TableEditor<E> {
    ghost use Rattle.plug_psi.specs.CycleStands.{edit_of};
    ghost use Rattle.service_edit.specs.EditorState.{EditsFor, TellsEdited};

    type Seed = E;

    type Input = ();

    type Told = EditedPacket;

    ghost stands = { λ seed it pid taken. EditsFor (E.change (edit_of it.cycles)) (E.change seed) it.tables it.cycles it.altered pid taken };

    ghost given = { λ pid taken packet input. Unit {0} };

    ghost tells = { λ seed pid taken packet told. TellsEdited (E.change seed) pid taken packet told };

    fn fresh(alloc: Global, seed: &E, pid: u16) -> Result<TableEditor<E>, AllocError> {
        let edit = seed.copy(alloc)?;
        let cycles = CycleEditor::new(alloc, pid, edit)?;
        // The largest value comes last: nothing can fail while it is held.
        let tables = PidTables::new(alloc, pid)?;
        Ok(TableEditor {
            tables,
            cycles,
            altered: false,
        })
    }

    fn take(
        &mut self,
        alloc: Global,
        at: u64,
        _input: (),
        packet: &Packet,
    ) -> Result<EditedPacket, AllocError> {
        let tables = self.tables.take(at, packet)?;
        let before = self.altered;
        let altered = self.cycles.alters_one(alloc, tables.as_slice(), before)?;
        let edited = self.cycles.advance(alloc, tables, packet)?;
        self.altered = altered;
        Ok(EditedPacket {
            packet: edited,
            altered,
        })
    }
}

impl<E: ServiceTableEdit> SeesChanges for TableEditor<E> {
    fn changed(&self) -> Option<ChangedTable> {
        self.tables.changed()
    }
}
