//! Reading bytes as the runs of tables.

ghost use Rattle.std.specs.Prelude.{◌≡◌, ◌^◌, ◌<◌, length, IfOk};
ghost use Rattle.std.specs.List.{concat};
ghost use Rattle.tabcomp_core.specs.TableRuns;
ghost use Rattle.tabcomp_core.specs.TableRuns.{AreStarts, Decompiles};

use crate::cutting::sections_of;
use crate::dividing::{NoRuns, runs_of};
use crate::fault::DecompileFault;
use std::alloc::{AllocError, Global};
use ts_section::{Section, TableRun};

/// Where each section begins, and where the last one ends.
fn starts_of(alloc: Global, sections: &[Section]) -> Result<Vec<usize>, AllocError>
    requires { length (concat sections.now) < 2 ^ 64 }
    ensures { IfOk result (λ v. AreStarts sections.now v.items) }
{
    let mut starts = Vec::new(alloc);
    let mut offset = 0;
    starts.push(0)?;
    for section in sections {
        offset += section.bytes().len();
        starts.push(offset)?;
    }
    Ok(starts)
}

/// The runs in the bytes, or the first fault: that of a section before that of a run.
pub fn runs_of_bytes(alloc: Global, bytes: &[u8]) -> Result<Vec<TableRun>, DecompileFault>
    ensures { Decompiles (λ v. v.items) result (TableRuns.table_runs bytes.now) }
{
    let sections = sections_of(alloc, bytes)?;
    let starts = starts_of(alloc, &sections)?;
    match runs_of(alloc, sections) {
        Ok(runs) => Ok(runs),
        Err(NoRuns::Place(place)) => Err(DecompileFault::Sequence {
            offset: starts[place],
        }),
        Err(NoRuns::NoMemory) => Err(DecompileFault::NoMemory),
    }
}
