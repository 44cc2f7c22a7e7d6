//! The cycle editor that reads its tables itself.

ghost use Rattle.std.specs.Prelude.{◌≡◌, ℕ, ◌<◌, ◌++◌, ◌∷◌, [], List, true, IfOk, OnOk, OnErr, IsErr};
ghost use Rattle.ts_demux.specs.TablesOn.{tables_on};
ghost use Rattle.plug_psi.specs.AlteredTables.{alters_one};
ghost use Rattle.plug_psi.specs.Edits.{Change};
ghost use Rattle.plug_psi.specs.EditedCycles.{replaced};

use crate::changes::Changes;
use crate::cycle_editor::CycleEditor;
use crate::edit::TableEdit;
use crate::unedited::Unedited;
use std::alloc::{AllocError, Global};
use ts_demux::{FailureLatch, PidTables};
use ts_packet::{NULL_PID, Packet};

/// Replaces the packets that are taken on a PID by packets of cycles of the PID's edited contents.
///
/// The contents are edited and packed when a cycle begins, and only if they changed since the last one began.
/// It keeps the last tables, one unfinished section and the packets of at most two cycles.
#[derive(Drop)]
pub struct Editor<E: TableEdit + Drop> {
    tables: PidTables,
    inner: CycleEditor<E>,
    /// Whether a table came that the edit alters.
    has_altered: bool,
    failed: FailureLatch,
    alloc: Global,
}

impl<E: TableEdit + Drop> Editor<E> {
    ghost use Rattle.plug_psi.specs.EditorStands.{StandsFor, edit_of, has_failed};

    /// A new editor of a PID below 8191, which has processed no packet.
    pub fn new(alloc: Global, pid: u16, edit: E) -> Result<Editor<E>, AllocError>
        requires { pid < NULL_PID }
        ensures fresh { IfOk result (λ editor. StandsFor (E.change edit) editor pid []) }
        ensures edit { IfOk result (λ editor. edit_of editor ≡ edit) }
    {
        let inner = CycleEditor::new(alloc, pid, edit)?;
        // The largest value comes last: nothing can fail while it is held.
        let tables = PidTables::new(alloc, pid)?;
        Ok(Editor {
            tables,
            inner,
            has_altered: false,
            failed: FailureLatch::unset(),
            alloc,
        })
    }

    /// Processes the next packet, which has a position, and puts in its place the next packet of the cycle that runs, with its counter, or a
    /// null packet if a cycle would begin and there is nothing to carry. The caller passes the packets that are taken
    /// and no others. After `AllocError` the packet is as it was, and every later call returns `AllocError`.
    pub fn step(&mut self, at: u64, packet: &mut Packet) -> Result<(), AllocError>
        ensures replaced { OnOk result ((pid : ℕ) (taken : List (List ℕ)) → StandsFor (E.change (edit_of self.old)) self.old pid taken
            → packet.new ≡ replaced pid (E.change (edit_of self.old)) taken packet.old) }
        ensures stands { OnOk result ((pid : ℕ) (taken : List (List ℕ)) → StandsFor (E.change (edit_of self.old)) self.old pid taken
            → StandsFor (E.change (edit_of self.old)) self.new pid (taken ++ packet.old ∷ [])) }
        ensures same_edit { edit_of self.new ≡ edit_of self.old }
        ensures spent { OnErr result (has_failed self.new ≡ true) }
        ensures as_it_was { OnErr result (packet.new ≡ packet.old) }
        ensures stays_spent { has_failed self.old ≡ true → IsErr result }
    {
        self.failed.check()?;
        let answer = self.advance(at, packet);
        let new = self.failed.note(answer)?;
        *packet = new;
        Ok(())
    }

    /// Whether the packets that were taken completed a table of which the edit makes other sections, or none.
    pub fn has_altered(&self) -> bool
        ensures { (edit : List (List ℕ) → Change) (pid : ℕ) (taken : List (List ℕ)) → StandsFor edit self.now pid taken
            → result ≡ alters_one edit (tables_on pid taken) }
    {
        self.has_altered
    }

    /// Why nothing was edited on this PID; `None` where the edit makes other sections of the last tables.
    pub fn unedited(&self, pid: u16) -> Result<Option<Unedited>, AllocError> {
        self.inner.unedited(self.alloc, pid)
    }

    /// Adds this PID, if a table changed there without a new version.
    pub fn add_changes(&self, pid: u16, changes: &mut Changes) -> Result<(), AllocError> {
        changes.add(pid, self.tables.changed())
    }

    /// Processes the next packet, and returns the one for its place.
    fn advance(&mut self, at: u64, packet: &Packet) -> Result<Packet, AllocError>
        ensures replaced { IfOk result (λ new. (pid : ℕ) (taken : List (List ℕ))
            → StandsFor (E.change (edit_of self.old)) self.old pid taken
            → new ≡ replaced pid (E.change (edit_of self.old)) taken packet.now) }
        ensures stands { OnOk result ((pid : ℕ) (taken : List (List ℕ)) → StandsFor (E.change (edit_of self.old)) self.old pid taken
            → StandsFor (E.change (edit_of self.old)) self.new pid (taken ++ packet.now ∷ [])) }
        ensures same_edit { edit_of self.new ≡ edit_of self.old }
        ensures same_failed { has_failed self.new ≡ has_failed self.old }
    {
        let tables = self.tables.take(at, packet)?;
        let before = self.has_altered;
        let altered = self
            .inner
            .alters_one(self.alloc, tables.as_slice(), before)?;
        let new = self.inner.advance(self.alloc, tables, packet)?;
        self.has_altered = altered;
        Ok(new)
    }
}
