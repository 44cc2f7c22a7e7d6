//! Tables that an edit wrote.

ghost use Rattle.std.specs.Prelude.{◌≡◌, ℕ, List, Result, IfOk};
ghost use Rattle.ts_table_rows.specs.TableSections.{Writes};
ghost use Rattle.ts_table_rows.specs.declared.fault.TableRefusal.{TableRefusal};
ghost use Rattle.plug_psi.specs.TableChange.{in_place};

use crate::edit::Edited;
use std::alloc::AllocError;
use ts_section::Section;
use ts_table_rows::TableRefusal;

/// The sections that were written, in place of the table. If it has no sections, the table stays as it is.
pub fn sections_or_same(answer: Result<Vec<Section>, TableRefusal>) -> Result<Edited, AllocError>
    ensures { (sections : Result (List (List ℕ)) TableRefusal) → Writes (λ v. v.items) answer sections
        → IfOk result (λ edited. edited ≡ in_place sections) }
{
    match answer {
        Ok(sections) => Ok(Edited::instead(sections)),
        Err(TableRefusal::TooLarge { bytes: _ }) => Ok(Edited::same()),
        Err(TableRefusal::TooMany) => Ok(Edited::same()),
        Err(TableRefusal::NoMemory) => Err(AllocError),
    }
}
