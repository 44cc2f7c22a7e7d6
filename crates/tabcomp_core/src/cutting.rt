//! Cutting bytes into sections.

ghost use Rattle.std.specs.Prelude.{◌≡◌, ◌<◌, length, Some, IfOk};
ghost use Rattle.std.specs.List.{concat};
ghost use Rattle.ts_section.specs.FirstBroken.{first_broken};
ghost use Rattle.ts_section.specs.SectionFields.{front_of};
ghost use Rattle.ts_section.specs.ValidSection.{IsSection};
ghost use Rattle.tabcomp_core.specs.Cutting.{Cuts, CutsFront, sections_in};

use crate::fault::DecompileFault;
use std::alloc::Global;
use ts_section::{Section, SectionFault};

/// The section at the beginning of the bytes; a fault is reported at `offset`.
fn first_section(alloc: Global, bytes: &[u8], offset: usize) -> Result<Section, DecompileFault>
    ensures { CutsFront offset bytes.now (λ s. s) result }
{
    match Section::parse_front(alloc, bytes) {
        Ok(section) => Ok(section),
        Err(SectionFault::NoMemory) => Err(DecompileFault::NoMemory),
        Err(fault) => Err(DecompileFault::Section { offset, fault }),
    }
}

/// The size of a section in bytes, at least three.
fn size_of(section: &Section) -> usize
    ensures size { result ≡ length section.now }
    ensures some { 0 < result }
{
    let bytes = section.bytes();
    bytes.len()
}

/// The sections in the bytes, one after another; or where the first invalid one begins, and the first rule that it
/// breaks. Each is what `Section::parse_front` reads from there.
pub fn sections_of(alloc: Global, bytes: &[u8]) -> Result<Vec<Section>, DecompileFault>
    ensures cut { Cuts (λ v. v.items) result (sections_in bytes.now) }
    ensures joined { IfOk result (λ v. concat v.items ≡ bytes.now) }
{
    let mut sections = Vec::new(alloc);
    let mut offset = 0;
    while offset < bytes.len() {
        let section = first_section(alloc, &bytes[offset..], offset)?;
        offset += size_of(&section);
        sections.push(section)?;
    }
    Ok(sections)
}
