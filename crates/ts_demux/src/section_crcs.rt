//! The CRCs of the sections of an era, by which a table is seen to change without a new version.

use crate::changed_table::ChangedTable;
use std::alloc::{AllocError, Global};
use ts_section::Section;

/// The CRC_32 of the first section of each number. They explain a run, and no clause speaks of them: where there is no
/// memory for them none is kept, and no change is seen.
#[derive(Drop)]
pub(crate) struct SectionCrcs {
    crcs: Vec<Option<u32>>,
}

impl SectionCrcs {
    /// No section came. Its memory is allocated here, for so many numbers.
    pub(crate) fn new(alloc: Global, numbers: usize) -> SectionCrcs {
        match none_of(alloc, numbers) {
            Ok(crcs) => SectionCrcs { crcs },
            Err(_) => SectionCrcs {
                crcs: Vec::new(alloc),
            },
        }
    }

    /// Compares the next section, which came with the packet at a position, with the first one of its number, and notes
    /// its table where they differ, unless a change was noted before.
    pub(crate) fn compare(
        &mut self,
        at: u64,
        place: usize,
        section: &Section,
        changed: &mut Option<ChangedTable>,
    ) {
        if changed.is_some() || place >= self.crcs.len() {
            return;
        }
        let crc = last_four(section.bytes());
        match self.crcs[place] {
            None => self.crcs[place] = Some(crc),
            Some(first) if first == crc => {}
            Some(_) => {
                let table_id = section.table_id();
                *changed = Some(ChangedTable { table_id, at });
            }
        }
    }
}

/// Places without a CRC.
fn none_of(alloc: Global, numbers: usize) -> Result<Vec<Option<u32>>, AllocError> {
    let mut crcs = Vec::with_capacity(alloc, numbers)?;
    for _ in 0..numbers {
        crcs.push(None)?;
    }
    Ok(crcs)
}

/// The last four bytes as a number: of a section of the long form its CRC_32 (ISO/IEC 13818-1, 2.4.4).
fn last_four(bytes: &[u8]) -> u32 {
    match bytes.split_last_chunk::<4>() {
        Some((_, last)) => u32::from_be_bytes(*last),
        None => 0,
    }
}
