//! Edits that go by the transport stream of the PAT in force.

ghost use Rattle.std.specs.Prelude.{◌≡◌, ℕ, List, OnOk};
ghost use Rattle.plug_psi.specs.ForceStands.{StandsFor as Forced};
ghost use Rattle.plug_psi.specs.InForce.{pat_of};
ghost use Rattle.plug_psi.specs.InUse.{EditAsMet};
ghost use Rattle.plug_psi.specs.VariedStands.{Varies, edit_in};
ghost use Rattle.service_items.specs.StreamTables;

use plug_psi::{InForce, TableEdit, VariedEditor};
use std::alloc::{AllocError, Global};

/// An edit that goes by a transport stream, if there is one.
pub trait OfStream: TableEdit + Drop {
    ghost use Rattle.std.specs.Prelude.{◌≡◌, ℕ, Option, IfOk};

    /// The edit with another transport stream.
    ghost at_stream: { Option ℕ → Self → Self };

    /// Its transport_stream_id.
    fn stream(&self) -> Option<u16>
        ensures { at_stream result self.now ≡ self.now };

    /// The same edit with another transport stream.
    fn with_stream(&self, alloc: Global, stream: Option<u16>) -> Result<Self, AllocError>
        ensures { IfOk result (λ edit. edit ≡ at_stream stream self.now) };
}

/// The transport_stream_id of the PAT in force.
pub fn stream_in_force(force: &InForce) -> Option<u16>
    ensures { (fed : List (List ℕ)) → Forced force.now fed → result ≡ StreamTables.stream_of (pat_of fed) }
{
    let pat = force.pat()?;
    Some(pat.stream_id)
}

/// Sets the transport stream of an editor's edit, if it is another one.
pub fn set_stream<E: OfStream>(
    alloc: Global,
    editor: &mut VariedEditor<E>,
    stream: Option<u16>,
) -> Result<(), AllocError>
    ensures stands { OnOk result ((pid : ℕ) (wanted : EditAsMet) (met : List (List ℕ))
        → Varies (E.change (edit_in editor.old)) editor.old pid wanted met → Varies (E.change (edit_in editor.new)) editor.new pid wanted met) }
    ensures edit { OnOk result (edit_in editor.new ≡ E.at_stream stream (edit_in editor.old)) }
{
    if editor.edit().stream() == stream {
        return Ok(());
    }
    let edit = editor.edit().with_stream(alloc, stream)?;
    editor.set_edit(edit);
    Ok(())
}
