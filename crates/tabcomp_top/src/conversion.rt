//! The conversion of the bytes that were read.
ghost use Rattle.std.specs.Prelude.{◌≡◌};
ghost use Rattle.tabcomp_core.specs.Compiling.{compiled};
ghost use Rattle.tabcomp_core.specs.Decompiling.{decompiled};
ghost use Rattle.tabcomp_top.specs.Conversion.{Converts, converted, of_compiled, of_decompiled};

use crate::status::TabStatus;
use crate::task::Task;
use std::alloc::Global;
use tabcomp_core::{CompileFault, DecompileFault, compile, decompile};

/// The bytes of the sections of the tables of a text.
fn compiled_bytes(alloc: Global, text: &[u8]) -> Result<Vec<u8>, TabStatus>
    ensures { Converts (λ v. v.items) result (of_compiled (compiled text.now)) }
{
    match compile(alloc, text) {
        Ok(sections) => Ok(sections),
        Err(CompileFault::NoMemory) => Err(TabStatus::NoMemory),
        Err(fault) => Err(TabStatus::Compile(fault)),
    }
}

/// The text of the tables of sections.
fn decompiled_bytes(alloc: Global, sections: &[u8]) -> Result<Vec<u8>, TabStatus>
    ensures { Converts (λ v. v.items) result (of_decompiled (decompiled sections.now)) }
{
    match decompile(alloc, sections) {
        Ok(text) => Ok(text.into_bytes()),
        Err(DecompileFault::NoMemory) => Err(TabStatus::NoMemory),
        Err(fault) => Err(TabStatus::Decompile(fault)),
    }
}

/// The conversion of bytes for a task, or the status that says why there is none.
#[tactic(auto, unfolding(crate::specs::Conversion::converted))]
pub(crate) fn convert(alloc: Global, task: Task, bytes: &[u8]) -> Result<Vec<u8>, TabStatus>
    ensures { Converts (λ v. v.items) result (converted task bytes.now) }
{
    match task {
        Task::Compile => compiled_bytes(alloc, bytes),
        Task::Decompile => decompiled_bytes(alloc, bytes),
        Task::Canonical => {
            let sections = compiled_bytes(alloc, bytes)?;
            decompiled_bytes(alloc, &sections)
        }
    }
}
