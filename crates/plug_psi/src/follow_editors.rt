//! A cycle editor as what follows a PID.

ghost use Rattle.std.specs.Prelude.{◌≡◌, ℕ, ◌<◌, List, IfOk};

use crate::cycle_editor::CycleEditor;
use crate::edit::TableEdit;
use crate::follows_tables::FollowsTables;
use std::alloc::{AllocError, Global};
use ts_packet::Packet;
use ts_section::TableRun;

/// An edit that is made from a seed for each PID.
pub trait SeededEdit: TableEdit + Drop {
    ghost use Rattle.plug_psi.specs.Edits.{Change};

    /// What the edits of all PIDs are made from.
    type Seed;

    /// What the edit on a PID makes of tables.
    ghost change_on: { Self.Seed → ℕ → List (List ℕ) → Change };

    /// The edit on a PID.
    fn on(alloc: Global, seed: &Self::Seed, pid: u16) -> Result<Self, AllocError>
        ensures { IfOk result (λ edit. Self.change edit ≡ change_on seed.now pid) };
}

impl<E: SeededEdit> FollowsTables for CycleEditor<E> {
    ghost use Rattle.plug_psi.specs.EditedCycles.{replaced};
    ghost use Rattle.plug_psi.specs.CycleStands.{edit_of, InSeededCycles};

    type Seed = E::Seed;

    type Told = Packet;

    ghost stands = { λ seed it pid taken. InSeededCycles (E.change (edit_of it)) (E.change_on seed pid) it pid taken };

    ghost tells = { λ seed pid taken packet told. told ≡ replaced pid (E.change_on seed pid) taken packet };

    fn fresh(alloc: Global, seed: &E::Seed, pid: u16) -> Result<CycleEditor<E>, AllocError> {
        let edit = E::on(alloc, seed, pid)?;
        let editor = CycleEditor::new(alloc, pid, edit)?;
        Ok(editor)
    }

    fn take(
        &mut self,
        alloc: Global,
        tables: Vec<TableRun>,
        packet: &Packet,
    ) -> Result<Packet, AllocError> {
        let new = self.advance(alloc, tables, packet)?;
        Ok(new)
    }
}
