//! The plugin `sdt`.

ghost use Rattle.std.specs.Prelude.{◌≡◌, [], None, IfOk};
ghost use Rattle.plug_edit.specs.Changes.{change_sdt};
ghost use Rattle.plug_edit.specs.EditRule.{edit_rule};
ghost use Rattle.plug_edit.specs.SdtSettings.{IsValidSdt};

use crate::edit_pid::{EditPid, new_edit_pid};
use crate::sdt_conf::EditSdtConf;
use crate::sdt_edit::edit_sdt;
use plug_psi::{Current, EditsTable};
use plugin_trait::Plugin;
use std::alloc::{AllocError, Global};
use ts_si::Sdt;

/// The edit of `sdt` for a current SDT of the actual transport stream.
#[derive(Drop)]
pub struct SdtEdit {
    conf: EditSdtConf,
    ghost valid: { IsValidSdt conf },
}

impl EditsTable for SdtEdit {
    ghost use Rattle.plug_psi.specs.TableChange.{of_id};
    ghost use Rattle.plug_edit.specs.SdtEdit.{edited_sdt};

    type Table = Sdt;

    ghost edited = { λ s table. of_id 0x42 (edited_sdt s.conf) table };

    fn edited(&self, alloc: Global, table: Sdt) -> Result<Option<Sdt>, AllocError> {
        if !table.actual {
            return Ok(None);
        }
        let edited = edit_sdt(alloc, &self.conf, table)?;
        Ok(edited)
    }
}

/// The plugin `sdt`, which edits the SDT of the actual transport stream on PID 17.
pub type EditSdt = EditPid<Current<SdtEdit>>;

/// A new `sdt`, which has processed no packet. It keeps a copy of the settings; its steps allocate memory.
pub fn new_edit_sdt(
    alloc: Global,
    conf: &EditSdtConf,
    _buffer: usize,
) -> Result<EditSdt, AllocError>
    requires { IsValidSdt conf.now }
    ensures rule { IfOk result (λ plugin. ⟦<EditSdt as Plugin>⟧.rule plugin ≡ edit_rule 17 (change_sdt conf.now)) }
    ensures fresh { IfOk result (λ plugin. ⟦<EditSdt as Plugin>⟧.stands_for plugin [] 0) }
    ensures preallocated { IfOk result (λ plugin. ⟦<EditSdt as Plugin>⟧.preallocated plugin ≡ None) }
{
    let edit = Current {
        edit: SdtEdit {
            conf: conf.copy(alloc)?,
        },
    };
    let plugin = new_edit_pid(alloc, 17, edit)?;
    Ok(plugin)
}
