//! The sections of a file, from its name and its bytes.
ghost use Rattle.std.specs.Prelude.{◌≡◌};
ghost use Rattle.tabcomp_core.specs.Compiling.{compiled};
ghost use Rattle.tabcomp_core.specs.Cutting.{sections_in};
ghost use Rattle.tabcomp_core.specs.TableFiles.{TellsSections, is_json_name, of_compiled, of_sections, sections_of_file};

use crate::table_file_fault::{NoTables, TableFileFault};
use crate::{CompileFault, DecompileFault, compile, sections_of};
use std::alloc::Global;
use ts_section::Section;

/// The greatest size of a file of tables in bytes.
pub const MOST_BYTES: usize = 16_777_216;

/// Whether a file of this name is a JSON text of tables: the name ends in `.json`, in lower case.
fn is_text(name: &str) -> bool
    ensures { result ≡ is_json_name name.now }
{
    name.as_bytes().ends_with(b".json")
}

/// The sections in the bytes, one after another.
fn cut(alloc: Global, bytes: &[u8]) -> Result<Vec<Section>, NoTables>
    ensures { TellsSections (λ v. v.items) result (of_sections (sections_in bytes.now)) }
{
    match sections_of(alloc, bytes) {
        Ok(sections) => Ok(sections),
        Err(DecompileFault::NoMemory) => Err(NoTables::NoMemory),
        Err(fault) => Err(NoTables::Refused(TableFileFault::Sections(fault))),
    }
}

/// The sections that a text is compiled to.
fn compile_and_cut(alloc: Global, text: &[u8]) -> Result<Vec<Section>, NoTables>
    ensures { TellsSections (λ v. v.items) result (of_compiled (compiled text.now)) }
{
    match compile(alloc, text) {
        Ok(bytes) => cut(alloc, &bytes),
        Err(CompileFault::NoMemory) => Err(NoTables::NoMemory),
        Err(fault) => Err(NoTables::Refused(TableFileFault::Compile(fault))),
    }
}

/// The sections of the file of this name with these bytes.
///
/// A file whose name ends in `.json` is a JSON text of tables, and has the sections that it is compiled to; any other
/// file is sections one after another. `Refused` comes exactly where it has more than 16,777,216 bytes or is neither;
/// a file without bytes has no sections, and is not refused.
#[tactic(auto, unfolding(crate::specs::TableFiles::sections_of_file))]
pub fn table_sections(alloc: Global, name: &str, bytes: &[u8]) -> Result<Vec<Section>, NoTables>
    ensures { TellsSections (λ v. v.items) result (sections_of_file name.now bytes.now) }
{
    if bytes.len() > MOST_BYTES {
        return Err(NoTables::Refused(TableFileFault::TooMany));
    }
    if is_text(name) {
        compile_and_cut(alloc, bytes)
    } else {
        cut(alloc, bytes)
    }
}
