//! The editor of a PID all of whose packets are taken.

ghost use Rattle.std.specs.Prelude.{◌≡◌, ◌++◌, ◌∷◌, ℕ, [], List, IfOk, OnOk};
ghost use Rattle.ts_packet.specs.Header.{pid_of};
ghost use Rattle.plug_psi.specs.InUse.{EditAsMet, replaced_as};
ghost use Rattle.plug_psi.specs.VariedStands.{Varies, edit_in};

use crate::edit_from::EditFrom;
use plug_psi::VariedEditor;
use std::alloc::{AllocError, Global};
use ts_packet::Packet;

/// Takes the next packet of the PID, which has a position, where the edit is made from what is in force with this packet, and
/// returns the packet for its place. After `AllocError` the editor is not to be used any more.
pub fn take_from<E: EditFrom>(
    alloc: Global,
    at: u64,
    source: &E::Source,
    editor: &mut VariedEditor<E>,
    packet: &Packet,
) -> Result<Packet, AllocError>
    ensures replaced { IfOk result (λ new. (pid : ℕ) (wanted : EditAsMet) (met : List (List ℕ))
        → Varies (E.change (edit_in editor.old)) editor.old pid wanted met → pid_of packet.now ≡ pid
        → wanted (met ++ packet.now ∷ []) ≡ E.made_from source.now → new ≡ replaced_as pid wanted met packet.now) }
    ensures stands { OnOk result ((pid : ℕ) (wanted : EditAsMet) (met : List (List ℕ))
        → Varies (E.change (edit_in editor.old)) editor.old pid wanted met → pid_of packet.now ≡ pid
        → wanted (met ++ packet.now ∷ []) ≡ E.made_from source.now
        → Varies (E.change (edit_in editor.new)) editor.new pid wanted (met ++ packet.now ∷ [])) }
{
    set_from(alloc, source, editor)?;
    let new = editor.take(alloc, at, packet)?;
    Ok(new)
}

// Makes the edit anew, unless it is made from what is in force.
fn set_from<E: EditFrom>(
    alloc: Global,
    source: &E::Source,
    editor: &mut VariedEditor<E>,
) -> Result<(), AllocError>
    ensures stands { OnOk result ((pid : ℕ) (wanted : EditAsMet) (met : List (List ℕ))
        → Varies (E.change (edit_in editor.old)) editor.old pid wanted met → Varies (E.change (edit_in editor.new)) editor.new pid wanted met) }
    ensures edit { OnOk result (E.change (edit_in editor.new) ≡ E.made_from source.now) }
{
    if editor.edit().is_from(source) {
        return Ok(());
    }
    let edit = E::from_source(alloc, source)?;
    editor.set_edit(edit);
    Ok(())
}
