//! Packets of the tables that are edited by a transport stream: SDTs and BATs, and NITs.

ghost use Rattle.std.specs.Prelude.{◌≡◌, ◌++◌, ◌∷◌, ℕ, [], List, true, is_some, IfOk, OnOk};
ghost use Rattle.ts_packet.specs.Header.{pid_of};
ghost use Rattle.plug_psi.specs.InForce.{pat_of};
ghost use Rattle.plug_psi.specs.InUse.{replaced_as};
ghost use Rattle.service_items.specs.StreamTables.{stream_of};
ghost use Rattle.plug_rename.specs.Renaming.{nit_edit, sdt_edit};
ghost use Rattle.plug_rename.specs.RenameState.{EditsNits, EditsSdts};
ghost use Rattle.plug_rename.specs.declared.rename_conf.RenameConf.{RenameConf};

use crate::nit_items::NitItems;
use crate::sdt_names::SdtNames;
use plug_psi::VariedEditor;
use service_items::set_stream;
use std::alloc::{AllocError, Global};
use ts_packet::Packet;

/// Takes a packet on PID 17 where a transport stream is that of the PAT in force, and returns the packet for its place. After
/// `AllocError` the editor is not to be used any more.
pub(crate) fn take_sdt(
    alloc: Global,
    at: u64,
    stream: Option<u16>,
    editor: &mut VariedEditor<SdtNames>,
    packet: &Packet,
) -> Result<Packet, AllocError>
    ensures made { IfOk result (λ new. (conf : RenameConf) (met : List (List ℕ)) → EditsSdts conf editor.old met
        → pid_of packet.now ≡ 17 → stream ≡ stream_of (pat_of (met ++ packet.now ∷ []))
        → new ≡ replaced_as 17 (sdt_edit conf) met packet.now) }
    ensures stands { OnOk result ((conf : RenameConf) (met : List (List ℕ)) → EditsSdts conf editor.old met
        → pid_of packet.now ≡ 17 → stream ≡ stream_of (pat_of (met ++ packet.now ∷ []))
        → EditsSdts conf editor.new (met ++ packet.now ∷ [])) }
{
    set_stream(alloc, editor, stream)?;
    let new = editor.take(alloc, at, packet)?;
    Ok(new)
}

/// Takes a packet on PID 16, where NITs are edited and a transport stream is that of the PAT in force, and returns the packet
/// for its place. After `AllocError` the editor is not to be used any more.
pub(crate) fn take_nit(
    alloc: Global,
    at: u64,
    stream: Option<u16>,
    editor: &mut VariedEditor<NitItems>,
    packet: &Packet,
) -> Result<Packet, AllocError>
    ensures made { IfOk result (λ new. (conf : RenameConf) (met : List (List ℕ)) → EditsNits conf editor.old met
        → is_some conf.id ≡ true → pid_of packet.now ≡ 16 → stream ≡ stream_of (pat_of (met ++ packet.now ∷ []))
        → new ≡ replaced_as 16 (nit_edit conf) met packet.now) }
    ensures stands { OnOk result ((conf : RenameConf) (met : List (List ℕ)) → EditsNits conf editor.old met
        → is_some conf.id ≡ true → pid_of packet.now ≡ 16 → stream ≡ stream_of (pat_of (met ++ packet.now ∷ []))
        → EditsNits conf editor.new (met ++ packet.now ∷ [])) }
{
    set_stream(alloc, editor, stream)?;
    let new = editor.take(alloc, at, packet)?;
    Ok(new)
}
