//! Editors of the tables of one PID.
//!
//! On PID 8191 the editor is made all the same, for PID 0, so that its type needs no case without one; it is never
//! asked.

ghost use Rattle.std.specs.Prelude.{◌≡◌, ◌≤◌, ◌<◌, [], None, IfOk};
ghost use Rattle.plug_psi.specs.EditorStands.{StandsFor, edit_of};
ghost use Rattle.plug_edit.specs.EditRule.{edit_rule};
ghost use Rattle.plug_edit.specs.EditState.{StepsStand, rule_of};

use plug_psi::{Changes, Editor, TableEdit, Unedited};
use plugin_trait::{FirstFind, Outcome, Plugin, Silent, Steps};
use std::alloc::{AllocError, Global};
use ts_packet::{Labels, NULL_PID, Packet};

/// The steps of `EditPid`.
///
/// A step on the PID may run out of memory, and then every later step on it does too.
#[derive(Drop)]
pub struct EditPidSteps<E: TableEdit + Drop> {
    pid: u16,
    /// It is not used if the PID is that of null packets.
    editor: Editor<E>,
    /// The first position at which a table was complete of which the edit makes other sections, or none.
    found: FirstFind,
}

/// Replaces the packets of a PID by packets of cycles of the PID's edited contents.
pub type EditPid<E> = Silent<EditPidSteps<E>>;

/// A new plugin, which has processed no packet. On PID 8191 nothing is edited.
pub fn new_edit_pid<E: TableEdit + Drop>(
    alloc: Global,
    pid: u16,
    edit: E,
) -> Result<EditPid<E>, AllocError>
    requires { pid ≤ NULL_PID }
    ensures rule { IfOk result (λ plugin. ⟦<EditPid<E> as Plugin>⟧.rule plugin ≡ edit_rule pid (E.change edit)) }
    ensures fresh { IfOk result (λ plugin. ⟦<EditPid<E> as Plugin>⟧.stands_for plugin [] 0) }
    ensures preallocated { IfOk result (λ plugin. ⟦<EditPid<E> as Plugin>⟧.preallocated plugin ≡ None) }
{
    let steps = new_steps(alloc, pid, edit)?;
    Ok(Silent { steps })
}

/// The steps of a new editor, which has processed no packet. On PID 8191 nothing is edited.
pub(crate) fn new_steps<E: TableEdit + Drop>(
    alloc: Global,
    pid: u16,
    edit: E,
) -> Result<EditPidSteps<E>, AllocError>
    requires { pid ≤ NULL_PID }
    ensures rule { IfOk result (λ steps. rule_of E.change steps ≡ edit_rule pid (E.change edit)) }
    ensures fresh { IfOk result (λ steps. StepsStand E.change steps []) }
    ensures pid { IfOk result (λ steps. steps.pid ≡ pid) }
{
    let editor = editor_on(alloc, pid, edit)?;
    Ok(EditPidSteps {
        pid,
        editor,
        found: FirstFind::none(),
    })
}

/// A new editor of a PID, or one that is not used if the PID is that of null packets.
fn editor_on<E: TableEdit + Drop>(alloc: Global, pid: u16, edit: E) -> Result<Editor<E>, AllocError>
    ensures fresh { IfOk result (λ editor. pid < NULL_PID → StandsFor (E.change edit) editor pid []) }
    ensures edit { IfOk result (λ editor. edit_of editor ≡ edit) }
{
    let edited = if pid < NULL_PID { pid } else { 0 };
    let editor = Editor::new(alloc, edited, edit)?;
    Ok(editor)
}

impl<E: TableEdit + Drop> EditPidSteps<E> {
    /// Why nothing was edited; `None` where the edit makes other sections of the last tables of the PID.
    pub fn unedited(&self) -> Result<Option<Unedited>, AllocError> {
        self.editor.unedited(self.pid)
    }

    /// Adds the PID, if a table changed there without a new version.
    pub fn add_changes(&self, changes: &mut Changes) -> Result<(), AllocError> {
        self.editor.add_changes(self.pid, changes)
    }

    /// The PID whose tables are edited.
    #[inline]
    pub(crate) fn pid(&self) -> u16
        ensures { result ≡ self.now.pid }
    {
        self.pid
    }
}

impl<E: TableEdit + Drop> Steps for EditPidSteps<E> {
    ghost use Rattle.std.specs.Prelude.{◌≡◌, ◌≢◌, ◌<◌, None, false, refl};
    ghost use Rattle.ts_packet.specs.Cells.{Dropped, Live};
    ghost use Rattle.chain_model.specs.declared.positions.TheConstants.{POSITION_LIMIT};
    ghost use Rattle.plugin_trait.specs.Steps.{MeetsCells, Meets, Tells, left_of};
    ghost use Rattle.plugin_trait.specs.Unmarked.{unmarked};
    ghost use Rattle.plug_edit.specs.EditRule.{is_taken};

    ghost rule = { λ s. rule_of E.change s };

    ghost stands_for = { λ s history. StepsStand E.change s history };

    ghost preallocated = { λ _. None };

    /// The clauses are those of `Steps`, whose ghost members have no names here, and two more: the PID stays, and a packet
    /// that the editor does not take needs no memory.
    fn step(&mut self, at: u64, packet: &mut Packet, _labels: &mut Labels) -> Outcome
        requires met { MeetsCells (unmarked (StepsStand E.change self.old)) at }
        requires in_range { at < POSITION_LIMIT }
        ensures tells { Tells (rule_of E.change self.old) (unmarked (StepsStand E.change self.old)) at
            (Live packet.old _labels.old) result (left_of result packet.new _labels.new) }
        ensures meets { Meets (unmarked (StepsStand E.change self.old)) (unmarked (StepsStand E.change self.new)) at
            (Live packet.old _labels.old) result }
        ensures same_rule { rule_of E.change self.new ≡ rule_of E.change self.old }
        ensures same_pid { self.new.pid ≡ self.old.pid }
        ensures quiet { is_taken self.old.pid packet.old ≡ false → result ≢ Outcome.NoMemory }
    {
        if packet.pid() != self.pid {
            return Outcome::Pass;
        }
        if self.pid >= NULL_PID {
            return Outcome::Pass;
        }
        match self.editor.step(at, packet) {
            Ok(()) => {
                self.found.meet(at, self.editor.has_altered());
                Outcome::Pass
            }
            Err(_) => Outcome::NoMemory,
        }
    }

    fn pass_over(&mut self, _at: u64)
        requires met { MeetsCells (unmarked (StepsStand E.change self.old)) _at }
        requires in_range { _at < POSITION_LIMIT }
        ensures meets { Meets (unmarked (StepsStand E.change self.old)) (unmarked (StepsStand E.change self.new)) _at
            Dropped Outcome.Pass }
        ensures same_rule { rule_of E.change self.new ≡ rule_of E.change self.old }
        ensures same_pid { self.new.pid ≡ self.old.pid }
    {}

    fn has_fault(&self, cut: u64) -> bool {
        self.found.is_none_below(cut)
    }

    ghost quiet = { λ plugin. record { no_lines = λ history packet labels. refl; no_summary = λ history. refl } };

    ghost never_agrees = { λ plugin history. refl };
}
