//! Tables that are read from runs of sections and written as such.
//!
//! The trait is here and not in `ts_table_rows`: tables in force and edits are all that needs it, and `ts_psi` and
//! `ts_si` stay as they are. That this crate depends on `ts_si` for it makes no chain of crates longer, as `ts_si` is
//! beside `ts_psi`. The crate of a plugin cannot add a kind of its own, since the trait and the table would both be of
//! other crates.

ghost use Rattle.std.specs.Prelude.{◌≡◌, ℕ, List, Result};
ghost use Rattle.ts_table_rows.specs.RunReading.{FirstBroken, Tells};
ghost use Rattle.ts_table_rows.specs.TablePages.{TablePage};
ghost use Rattle.ts_table_rows.specs.TableSections.{Writes, sections_of};
ghost use Rattle.ts_table_rows.specs.TableValues.{TableHolding};

use std::alloc::Global;
use ts_section::{Section, TableRun};
use ts_table_rows::{TableFault, TableRefusal};

/// A table of one kind, such as a PAT or an SDT.
pub trait PsiTable: Drop {
    /// Its values as those of a table.
    ghost held: { Self → TableHolding };

    /// The page of its kind's layout.
    ghost page: { TablePage };

    /// What a run holds as a table of this kind, or the first rule that it breaks.
    ghost reads: { List (List ℕ) → Result TableHolding FirstBroken };

    /// The table of a run, or the first rule that the run breaks.
    fn read(alloc: Global, run: &TableRun) -> Result<Self, TableFault>
        ensures { Tells held result (reads run.now) };

    /// Its sections, or why it has none.
    fn sections(&self, alloc: Global) -> Result<Vec<Section>, TableRefusal>
        ensures { Writes (λ v. v.items) result (sections_of page (held self.now)) };

    /// current_next_indicator.
    fn is_current(&self) -> bool
        ensures { result ≡ (held self.now).head.current };
}
