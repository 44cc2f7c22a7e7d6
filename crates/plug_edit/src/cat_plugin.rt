//! The plugin `cat`.

ghost use Rattle.std.specs.Prelude.{◌≡◌, [], None, IfOk};
ghost use Rattle.plug_edit.specs.Changes.{change_cat};
ghost use Rattle.plug_edit.specs.EditRule.{edit_rule};
ghost use Rattle.plug_edit.specs.CatSettings.{IsValidCat};

use crate::cat_conf::EditCatConf;
use crate::cat_edit::edit_cat;
use crate::edit_pid::{EditPid, new_edit_pid};
use plug_psi::{Current, EditsTable};
use plugin_trait::Plugin;
use std::alloc::{AllocError, Global};
use ts_psi::Cat;

/// The edit of `cat` for a current CAT.
#[derive(Drop)]
pub struct CatEdit {
    conf: EditCatConf,
    ghost valid: { IsValidCat conf },
}

impl EditsTable for CatEdit {
    ghost use Rattle.plug_edit.specs.CatEdit.{edited_cat};

    type Table = Cat;

    ghost edited = { λ s table. edited_cat s.conf table };

    fn edited(&self, alloc: Global, table: Cat) -> Result<Option<Cat>, AllocError> {
        let edited = edit_cat(alloc, &self.conf, table)?;
        Ok(edited)
    }
}

/// The plugin `cat`, which edits the CAT on PID 1.
pub type EditCat = EditPid<Current<CatEdit>>;

/// A new `cat`, which has processed no packet. It keeps a copy of the settings; its steps allocate memory.
pub fn new_edit_cat(
    alloc: Global,
    conf: &EditCatConf,
    _buffer: usize,
) -> Result<EditCat, AllocError>
    requires { IsValidCat conf.now }
    ensures rule { IfOk result (λ plugin. ⟦<EditCat as Plugin>⟧.rule plugin ≡ edit_rule 1 (change_cat conf.now)) }
    ensures fresh { IfOk result (λ plugin. ⟦<EditCat as Plugin>⟧.stands_for plugin [] 0) }
    ensures preallocated { IfOk result (λ plugin. ⟦<EditCat as Plugin>⟧.preallocated plugin ≡ None) }
{
    let edit = Current {
        edit: CatEdit {
            conf: conf.copy(alloc)?,
        },
    };
    let plugin = new_edit_pid(alloc, 1, edit)?;
    Ok(plugin)
}
