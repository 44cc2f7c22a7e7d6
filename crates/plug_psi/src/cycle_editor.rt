//! The cycle editor for tables that are read elsewhere.

ghost use Rattle.std.specs.Prelude.{◌≡◌, ℕ, ◌<◌, ◌||◌, ◌++◌, ◌∷◌, [], List, length, IfOk, OnOk};
ghost use Rattle.indexmap.specs.IndexMap.{values};
ghost use Rattle.ts_packetize.specs.Packets.{packets_of};
ghost use Rattle.plug_psi.specs.AlteredTables;
ghost use Rattle.plug_psi.specs.EditedCycles.{EditsInUse, replaced_by};
ghost use Rattle.plug_psi.specs.Edits.{edited_sections};
ghost use Rattle.plug_psi.specs.EditorState.{NextInPlace, Renewed};

use crate::altered_tables::alters_one;
use crate::contents::{Contents, Tables};
use crate::edit::TableEdit;
use crate::edited::{are_sections_of, edited};
use crate::unedited::Unedited;
use std::alloc::{AllocError, Global};
use ts_packet::{NULL_PID, Packet};
use ts_packetize::Cycle;
use ts_section::TableRun;

/// Returns a packet for the place of each packet that is taken on a PID, from cycles of the PID's edited contents. It does
/// not read the tables itself: an `Editor` does, or what follows the PID already.
///
/// The contents are edited and packed when a cycle begins, and only if they or the edit changed since the last one began.
/// It keeps the last tables and the packets of at most two cycles.
#[derive(Drop)]
pub struct CycleEditor<E: TableEdit + Drop> {
    contents: Contents,
    edit: E,
    cycle: Cycle,
    counter: u8,
    /// Whether a table came, or the edit was set, since the cycle was last renewed.
    changed: bool,
}

impl<E: TableEdit + Drop> CycleEditor<E> {
    ghost use Rattle.ts_demux.specs.TablesOn.{Completes};
    ghost use Rattle.plug_psi.specs.CycleStands.{InCycles, InCyclesBy, edit_of};

    /// A new editor of a PID below 8191, which has processed no packet.
    pub fn new(alloc: Global, pid: u16, edit: E) -> Result<CycleEditor<E>, AllocError>
        requires { pid < NULL_PID }
        ensures fresh { IfOk result (λ editor. InCycles (E.change edit) editor pid []) }
        ensures edit { IfOk result (λ editor. edit_of editor ≡ edit) }
    {
        let cycle = Cycle::new(alloc, pid)?;
        Ok(CycleEditor {
            contents: Contents::new(alloc),
            edit,
            cycle,
            counter: 0,
            changed: true,
        })
    }

    /// The edit that is in use.
    pub fn edit(&self) -> &E
        ensures { result.now ≡ edit_of self.now }
    {
        &self.edit
    }

    /// Sets the edit that is in use from the next packet on. The cycle that runs stays as it is, and the next one has the
    /// contents under the new edit. An edit that makes the same of tables need not be set: with each one that is, the contents
    /// are edited and packed anew.
    pub fn set_edit(&mut self, edit: E)
        ensures stands { (edits : EditsInUse) (pid : ℕ) (taken : List (List ℕ))
            → InCyclesBy edits (E.change (edit_of self.old)) self.old pid taken → InCyclesBy edits (E.change edit) self.new pid taken }
        ensures edit { edit_of self.new ≡ edit }
    {
        self.edit = edit;
        self.changed = true;
    }

    /// Processes the next packet, of which only the tables that it completes matter, and returns the packet for its place:
    /// the next one of the cycle that runs, with its counter, or a null packet if a cycle would begin and there is nothing to
    /// carry. The caller passes the packets that are taken and no others. The edit in use at the packet is that of the editor,
    /// whatever the edits at those before were. After `AllocError` it is not to be used any more.
    pub fn advance(
        &mut self,
        alloc: Global,
        tables: Vec<TableRun>,
        packet: &Packet,
    ) -> Result<Packet, AllocError>
        ensures replaced { IfOk result (λ new. (pid : ℕ) (edits : EditsInUse) (taken : List (List ℕ))
            → InCyclesBy edits (E.change (edit_of self.old)) self.old pid taken → edits (length taken) ≡ E.change (edit_of self.old)
            → Completes pid taken packet.now tables.items → new ≡ replaced_by pid edits taken packet.now) }
        ensures stands { OnOk result ((pid : ℕ) (edits : EditsInUse) (taken : List (List ℕ))
            → InCyclesBy edits (E.change (edit_of self.old)) self.old pid taken → edits (length taken) ≡ E.change (edit_of self.old)
            → Completes pid taken packet.now tables.items
            → InCyclesBy edits (E.change (edit_of self.old)) self.new pid (taken ++ packet.now ∷ [])) }
        ensures same_edit { edit_of self.new ≡ edit_of self.old }
    {
        // Only the tables that the packet completes matter.
        let _ = packet;
        let came = self.contents.keep(tables)?;
        let changed = one_holds(self.changed, came);
        let tables = self.contents.tables();
        let changed = renew_where_over(alloc, &self.edit, tables, &mut self.cycle, changed)?;
        let (packet, counter) = next_in_place(&mut self.cycle, self.counter % 16);
        self.changed = changed;
        self.counter = counter;
        Ok(packet)
    }

    /// Whether one of these tables is altered by the edit, that is, whether it makes other sections of it, or none; or
    /// whether one was before. Then the edit is not tried again.
    pub fn alters_one(
        &self,
        alloc: Global,
        tables: &[TableRun],
        before: bool,
    ) -> Result<bool, AllocError>
        ensures { IfOk result (λ one. one
            ≡ (before || AlteredTables.alters_one (E.change (edit_of self.now)) tables.now)) }
    {
        if before {
            return Ok(true);
        }
        alters_one(alloc, &self.edit, tables)
    }

    /// Why nothing was edited on this PID; `None` where the edit makes other sections of the last tables.
    pub fn unedited(&self, alloc: Global, pid: u16) -> Result<Option<Unedited>, AllocError> {
        let tables = self.contents.tables();
        if tables.len() == 0 {
            return Ok(Some(Unedited::NoTable(pid)));
        }
        let sections = edited(alloc, &self.edit, tables)?;
        if are_sections_of(tables, sections.as_slice()) {
            return Ok(Some(Unedited::SameTables(pid)));
        }
        Ok(None)
    }
}

/// Whether at least one of two holds.
pub(crate) fn one_holds(a: bool, b: bool) -> bool
    ensures { result ≡ (a || b) }
{
    a || b
}

/// If the tables or the edit changed since the last cycle began, and no cycle runs, the next cycle is made of the edited tables.
/// Returns whether the tables have changes that are missing in the cycle that begins or runs now.
fn renew_where_over<E: TableEdit>(
    alloc: Global,
    edit: &E,
    tables: &Tables,
    cycle: &mut Cycle,
    changed: bool,
) -> Result<bool, AllocError>
    ensures { IfOk result (λ still. Renewed cycle.old cycle.new changed still
        (packets_of cycle.old.pid (edited_sections (E.change edit.now) (values tables.now)))) }
{
    if !changed {
        return Ok(false);
    }
    if !cycle.is_over() {
        return Ok(true);
    }
    let sections = edited(alloc, edit, tables)?;
    cycle.renew(sections)?;
    Ok(false)
}

/// The next packet of a cycle, or a null packet if it has none, and the counter after it.
fn next_in_place(cycle: &mut Cycle, counter: u8) -> (Packet, u8)
    requires { counter < 16 }
    ensures { NextInPlace cycle.old cycle.new counter result.0 result.1 }
{
    match cycle.next(counter) {
        Some(packet) => (packet, (counter + 1) % 16),
        None => (Packet::null(), counter),
    }
}
