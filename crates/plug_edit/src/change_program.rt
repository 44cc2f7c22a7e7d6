//! What `pmt` changes of the descriptors of a program.

ghost use Rattle.std.specs.Prelude.{◌≡◌, ◌++◌, IfOk, OnOk, option_map};
ghost use Rattle.std.specs.List.{All};
ghost use Rattle.ts_bits.specs.DescriptorLoop.{descriptors_of};
ghost use Rattle.plug_edit.specs.CatSettings.{IsAddedCa};
ghost use Rattle.plug_edit.specs.PmtChanges.{changed_program, descriptors_read, with_more, without_tags};

use crate::cat_edit::with_added;
use crate::pmt_changes::PmtChanges;
use plugin_options::NumberSet;
use std::alloc::{AllocError, Global};
use ts_bits::{Descriptor, DescriptorList, LoopFault, read_loop};

/// The descriptors of a program after the changes; `None` if a CA descriptor would exceed 255 bytes.
pub(crate) fn change_program(
    alloc: Global,
    changes: &PmtChanges,
    descriptors: DescriptorList,
) -> Result<Option<DescriptorList>, AllocError>
    requires { All IsAddedCa changes.now.add_ca }
    ensures { IfOk result (λ all. all ≡ changed_program changes.now descriptors) }
{
    let mut kept = descriptors.into_vec();
    remove_tags(&mut kept, &changes.remove_descriptor);
    let Some(mut all) = with_added(alloc, kept, changes.add_ca.as_slice())? else {
        return Ok(None);
    };
    add_descriptors(alloc, &mut all, changes.add_descriptor.as_slice())?;
    Ok(Some(DescriptorList::of(all)))
}

/// Removes the descriptors that have one of the tags.
fn remove_tags(descriptors: &mut Vec<Descriptor>, tags: &NumberSet)
    ensures { descriptors.new.items ≡ without_tags tags.now descriptors.old.items }
{
    descriptors.retain(|descriptor| !tags.has(u64::from(descriptor.tag())));
}

/// Puts the descriptors of a row of bytes behind others.
pub(crate) fn add_descriptors(
    alloc: Global,
    descriptors: &mut Vec<Descriptor>,
    bytes: &[u8],
) -> Result<(), AllocError>
    ensures { OnOk result (descriptors.new.items ≡ with_more bytes.now descriptors.old.items) }
{
    let mut more = read_descriptors(alloc, bytes)?;
    descriptors.append(&mut more)?;
    Ok(())
}

/// The descriptors of a row of bytes; none where one passes the end, which the bytes of settings do not have.
fn read_descriptors(alloc: Global, bytes: &[u8]) -> Result<Vec<Descriptor>, AllocError>
    ensures { IfOk result (λ v. v.items ≡ descriptors_read (descriptors_of bytes.now)) }
{
    match read_loop(alloc, bytes) {
        Ok(descriptors) => Ok(descriptors.into_vec()),
        Err(LoopFault::Cut { offset: _ }) => Ok(Vec::new(alloc)),
        Err(LoopFault::NoMemory) => Err(AllocError),
    }
}
