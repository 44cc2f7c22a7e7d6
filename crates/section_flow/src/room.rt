//! Sections laid one after another into the room that is left in a payload.

ghost use Rattle.std.specs.Prelude.{◌≡◌, ◌++◌, [], length, take, OnOk};
ghost use Rattle.ts_packetize.specs.Packing.{joined, missing, not_begun};

use std::alloc::AllocError;
use std::collections::VecDeque;
use ts_section::Section;

/// Takes sections from the front and appends them to the load, as far as there is room for their bytes. The bytes that
/// are missing of the last one are left in `rest`, which is empty before.
pub(crate) fn lay(
    room: usize,
    sections: &mut VecDeque<Section>,
    rest: &mut Vec<u8>,
    load: &mut Vec<u8>,
) -> Result<(), AllocError>
    requires { rest.old.items ≡ [] }
    ensures load { OnOk result (load.new.items ≡ load.old.items ++ take room (joined sections.old.items)) }
    ensures rest { OnOk result (rest.new.items ≡ missing room sections.old.items) }
    ensures sections { OnOk result (sections.new.items ≡ not_begun room sections.old.items) }
{
    if room == 0 {
        return Ok(());
    }
    let Some(first) = sections.pop_front() else {
        return Ok(());
    };
    let bytes = first.bytes();
    if bytes.len() <= room {
        load.extend_from_slice(bytes)?;
        lay(room - bytes.len(), sections, rest, load)?;
        return Ok(());
    }
    load.extend_from_slice(&bytes[..room])?;
    rest.extend_from_slice(&bytes[room..])?;
    Ok(())
}
