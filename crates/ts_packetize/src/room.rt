//! Sections laid one after another into the room that is left in a payload.

ghost use Rattle.std.specs.Prelude.{◌≡◌, ◌++◌, length, take, OnOk};
ghost use Rattle.std.specs.List.{AllByRecursion};
ghost use Rattle.ts_section.specs.ValidSection.{IsSection};
ghost use Rattle.ts_packetize.specs.Packing.{joined};
ghost use Rattle.ts_packetize.specs.Packing as packing;
ghost use Rattle.ts_packetize.specs.Begun.{begun};

use std::alloc::AllocError;
use ts_section::Section;

/// Appends sections to the load, as far as there is room for their bytes.
pub(crate) fn lay(waiting: &[Section], room: usize, load: &mut Vec<u8>) -> Result<(), AllocError>
    ensures laid { OnOk result (load.new.items ≡ load.old.items ++ take room (joined waiting.now)) }
    ensures valid { OnOk result (AllByRecursion (λ s. IsSection s) (begun room waiting.now)) }
{
    let Some((first, others)) = waiting.split_first() else {
        return Ok(());
    };
    if room == 0 {
        return Ok(());
    }
    let bytes = first.bytes();
    if bytes.len() <= room {
        load.extend_from_slice(bytes)?;
        lay(others, room - bytes.len(), load)?;
        return Ok(());
    }
    load.extend_from_slice(&bytes[..room])?;
    Ok(())
}

/// The bytes that are missing of the section that begins in this room and does not end in it.
/// `nothing` has no bytes, and is returned where there is no such section.
pub(crate) fn missing<'a>(nothing: &'a [u8], waiting: &'a [Section], room: usize) -> &'a [u8]
    requires { length nothing.now ≡ 0 }
    ensures { result.now ≡ packing.missing room waiting.now }
{
    let Some((first, others)) = waiting.split_first() else {
        return nothing;
    };
    if room == 0 {
        return nothing;
    }
    let bytes = first.bytes();
    if bytes.len() <= room {
        return missing(nothing, others, room - bytes.len());
    }
    &bytes[room..]
}

/// The sections that do not begin in this room.
pub(crate) fn not_begun(waiting: &[Section], room: usize) -> &[Section]
    ensures { result.now ≡ packing.not_begun room waiting.now }
{
    let Some((first, others)) = waiting.split_first() else {
        return waiting;
    };
    if room == 0 {
        return waiting;
    }
    let bytes = first.bytes();
    if bytes.len() <= room {
        return not_begun(others, room - bytes.len());
    }
    others
}
