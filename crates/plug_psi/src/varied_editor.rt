//! The editor of a PID by an edit that may change.

ghost use Rattle.std.specs.Prelude.{◌≡◌, ◌<◌, ◌++◌, ◌∷◌, ℕ, [], List, IfOk, OnOk};
ghost use Rattle.ts_packet.specs.Header.{pid_of};
ghost use Rattle.plug_psi.specs.InUse.{EditAsMet, replaced_as};

use crate::changes::SeesChanges;
use crate::cycle_editor::CycleEditor;
use crate::edit::TableEdit;
use std::alloc::{AllocError, Global};
use ts_demux::{ChangedTable, PidTables};
use ts_packet::{NULL_PID, Packet};

/// Edits the tables of one PID, all of whose packets it takes, by an edit that may be another one at each of them, as one is
/// that goes by tables in force of other PIDs. The clauses speak of the packets of any PID that were met, and of any edit by
/// them; the caller sets the edit, before a packet is taken, to what that one is with this packet.
#[derive(Drop)]
pub struct VariedEditor<E: TableEdit + Drop> {
    tables: PidTables,
    editor: CycleEditor<E>,
}

impl<E: TableEdit + Drop> VariedEditor<E> {
    ghost use Rattle.plug_psi.specs.VariedStands.{Varies, edit_in};

    /// A new editor of a PID below 8191, which has taken no packet.
    pub fn new(alloc: Global, pid: u16, edit: E) -> Result<VariedEditor<E>, AllocError>
        requires { pid < NULL_PID }
        ensures fresh { IfOk result (λ varied. (wanted : EditAsMet) → Varies (E.change edit) varied pid wanted []) }
        ensures edit { IfOk result (λ varied. edit_in varied ≡ edit) }
    {
        let editor = CycleEditor::new(alloc, pid, edit)?;
        // The largest value comes last: nothing can fail while it is held.
        let tables = PidTables::new(alloc, pid)?;
        Ok(VariedEditor { tables, editor })
    }

    /// The edit that is in use.
    pub fn edit(&self) -> &E
        ensures { result.now ≡ edit_in self.now }
    {
        self.editor.edit()
    }

    /// Sets the edit that is in use from the next packet on. The cycle that runs stays as it is.
    pub fn set_edit(&mut self, edit: E)
        ensures stands { (pid : ℕ) (wanted : EditAsMet) (met : List (List ℕ))
            → Varies (E.change (edit_in self.old)) self.old pid wanted met → Varies (E.change edit) self.new pid wanted met }
        ensures edit { edit_in self.new ≡ edit }
    {
        self.editor.set_edit(edit);
    }

    /// Takes the next packet of the PID, which has a position, and returns the packet for its place, if the edit is that
    /// which the packets with this one tell. After `AllocError` it is not to be used any more.
    pub fn take(&mut self, alloc: Global, at: u64, packet: &Packet) -> Result<Packet, AllocError>
        ensures replaced { IfOk result (λ new. (pid : ℕ) (wanted : EditAsMet) (met : List (List ℕ))
            → Varies (E.change (edit_in self.old)) self.old pid wanted met → pid_of packet.now ≡ pid
            → wanted (met ++ packet.now ∷ []) ≡ E.change (edit_in self.old) → new ≡ replaced_as pid wanted met packet.now) }
        ensures stands { OnOk result ((pid : ℕ) (wanted : EditAsMet) (met : List (List ℕ))
            → Varies (E.change (edit_in self.old)) self.old pid wanted met → pid_of packet.now ≡ pid
            → wanted (met ++ packet.now ∷ []) ≡ E.change (edit_in self.old)
            → Varies (E.change (edit_in self.old)) self.new pid wanted (met ++ packet.now ∷ [])) }
        ensures same_edit { edit_in self.new ≡ edit_in self.old }
    {
        let tables = self.tables.take(at, packet)?;
        let new = self.editor.advance(alloc, tables, packet)?;
        Ok(new)
    }
}

impl<E: TableEdit + Drop> SeesChanges for VariedEditor<E> {
    fn changed(&self) -> Option<ChangedTable> {
        self.tables.changed()
    }
}
