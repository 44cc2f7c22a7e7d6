//! The table_ids of sections on a PID.
ghost use Rattle.std.specs.Prelude.{◌≡◌, ◌++◌, IfOk, OnOk};
ghost use Rattle.ts_section.specs.SectionFields.{table_id_of};
ghost use Rattle.monitor_tables.specs.TableIds as tables;

use std::alloc::{AllocError, Global};
use ts_section::Section;

/// Whether a table may come on a PID; of PIDs but 0, 1 and 16 to 20 nothing is said (ETSI TR 101 290, 5.2; ISO/IEC 13818-1,
/// 2.4.4.4; ETSI EN 300 468, 5.1.3 and table 2).
pub fn may_be_on(pid: u16, table_id: u8) -> bool
    ensures { result ≡ tables.may_be_on pid table_id }
{
    match pid {
        0 => table_id == 0,
        1 => table_id == 1,
        16 => matches!(table_id, 64 | 65 | 114),
        17 => matches!(table_id, 66 | 70 | 74 | 114),
        18 => matches!(table_id, 78..=111 | 114),
        19 => matches!(table_id, 113 | 114),
        20 => matches!(table_id, 112 | 114 | 115),
        _ => true,
    }
}

/// The table_ids of sections on a PID that may not come there, in the order of the sections: an error each.
pub fn strangers(alloc: Global, pid: u16, sections: &[Section]) -> Result<Vec<u8>, AllocError>
    ensures { IfOk result (λ ids. ids.items ≡ tables.strangers_in pid sections.now) }
{
    let mut ids = Vec::new(alloc);
    for section in sections {
        add_stranger(&mut ids, pid, section)?;
    }
    Ok(ids)
}

/// Whether a section with a table_id is among sections.
pub fn has_table(sections: &[Section], table_id: u8) -> bool
    ensures { result ≡ tables.has_table table_id sections.now }
{
    for section in sections {
        if section.table_id() == table_id {
            return true;
        }
    }
    false
}

// Adds the table_id of a section that may not come on a PID.
fn add_stranger(ids: &mut Vec<u8>, pid: u16, section: &Section) -> Result<(), AllocError>
    ensures { OnOk result (ids.new.items ≡ ids.old.items ++ tables.stranger_in pid (table_id_of section.now)) }
{
    let table_id = section.table_id();
    if !may_be_on(pid, table_id) {
        ids.push(table_id)?;
    }
    Ok(())
}
