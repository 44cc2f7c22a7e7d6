//! The plugin `pat`.

ghost use Rattle.std.specs.Prelude.{◌≡◌, [], None, IfOk};
ghost use Rattle.plug_edit.specs.Changes.{change_pat};
ghost use Rattle.plug_edit.specs.EditRule.{edit_rule};
ghost use Rattle.plug_edit.specs.PatSettings.{IsValidPat};

use crate::edit_pid::{EditPid, new_edit_pid};
use crate::pat_conf::EditPatConf;
use crate::pat_edit::edit_pat;
use plug_psi::{Current, EditsTable};
use plugin_trait::Plugin;
use std::alloc::{AllocError, Global};
use ts_psi::Pat;

/// The edit of `pat` for a current PAT.
#[derive(Drop)]
pub struct PatEdit {
    conf: EditPatConf,
    ghost valid: { IsValidPat conf },
}

impl EditsTable for PatEdit {
    ghost use Rattle.std.specs.Prelude.{Some};
    ghost use Rattle.plug_edit.specs.PatEdit.{edited_pat};

    type Table = Pat;

    ghost edited = { λ s table. Some (edited_pat s.conf table) };

    fn edited(&self, _alloc: Global, table: Pat) -> Result<Option<Pat>, AllocError> {
        let edited = edit_pat(&self.conf, table)?;
        Ok(Some(edited))
    }
}

/// The plugin `pat`, which edits the PAT on PID 0.
pub type EditPat = EditPid<Current<PatEdit>>;

/// A new `pat`, which has processed no packet. It keeps a copy of the settings; its steps allocate memory.
pub fn new_edit_pat(
    alloc: Global,
    conf: &EditPatConf,
    _buffer: usize,
) -> Result<EditPat, AllocError>
    requires { IsValidPat conf.now }
    ensures rule { IfOk result (λ plugin. ⟦<EditPat as Plugin>⟧.rule plugin ≡ edit_rule 0 (change_pat conf.now)) }
    ensures fresh { IfOk result (λ plugin. ⟦<EditPat as Plugin>⟧.stands_for plugin [] 0) }
    ensures preallocated { IfOk result (λ plugin. ⟦<EditPat as Plugin>⟧.preallocated plugin ≡ None) }
{
    let edit = Current {
        edit: PatEdit {
            conf: conf.copy(alloc)?,
        },
    };
    let plugin = new_edit_pid(alloc, 0, edit)?;
    Ok(plugin)
}
