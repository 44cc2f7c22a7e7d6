//! The plugin `nit`.

ghost use Rattle.std.specs.Prelude.{◌≡◌, [], None, IfOk};
ghost use Rattle.plug_edit.specs.Changes.{change_nit};
ghost use Rattle.plug_edit.specs.EditRule.{edit_rule};
ghost use Rattle.plug_edit.specs.NitSettings.{IsValidNit};

use crate::edit_pid::{EditPid, new_edit_pid};
use crate::nit_conf::EditNitConf;
use crate::nit_edit::edit_nit;
use plug_psi::{Current, EditsTable};
use plugin_trait::Plugin;
use std::alloc::{AllocError, Global};
use ts_si::Nit;

/// The edit of `nit` for a current NIT of the actual network.
#[derive(Drop)]
pub struct NitEdit {
    conf: EditNitConf,
    ghost valid: { IsValidNit conf },
}

impl EditsTable for NitEdit {
    ghost use Rattle.plug_psi.specs.TableChange.{of_id};
    ghost use Rattle.plug_edit.specs.NitEdit.{edited_nit};

    type Table = Nit;

    ghost edited = { λ s table. of_id 0x40 (edited_nit s.conf) table };

    fn edited(&self, alloc: Global, table: Nit) -> Result<Option<Nit>, AllocError> {
        if !table.actual {
            return Ok(None);
        }
        let edited = edit_nit(alloc, &self.conf, table)?;
        Ok(edited)
    }
}

/// The plugin `nit`, which edits the NIT of the actual network on PID 16.
pub type EditNit = EditPid<Current<NitEdit>>;

/// A new `nit`, which has processed no packet. It keeps a copy of the settings; its steps allocate memory.
pub fn new_edit_nit(
    alloc: Global,
    conf: &EditNitConf,
    _buffer: usize,
) -> Result<EditNit, AllocError>
    requires { IsValidNit conf.now }
    ensures rule { IfOk result (λ plugin. ⟦<EditNit as Plugin>⟧.rule plugin ≡ edit_rule 16 (change_nit conf.now)) }
    ensures fresh { IfOk result (λ plugin. ⟦<EditNit as Plugin>⟧.stands_for plugin [] 0) }
    ensures preallocated { IfOk result (λ plugin. ⟦<EditNit as Plugin>⟧.preallocated plugin ≡ None) }
{
    let edit = Current {
        edit: NitEdit {
            conf: conf.copy(alloc)?,
        },
    };
    let plugin = new_edit_pid(alloc, 16, edit)?;
    Ok(plugin)
}
