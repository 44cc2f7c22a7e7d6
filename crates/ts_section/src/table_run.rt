//! The sections of one whole table.

ghost use Rattle.std.specs.Prelude.{◌≡◌, ◌↔◌, true, false, All, IfOk, IfErr, IfNone, IfSome, OnSome, IsTrue};
ghost use Rattle.ts_section.specs.SectionFields.{head_fields};
ghost use Rattle.ts_section.specs.ValidSection.{IsSection};
ghost use Rattle.ts_section.specs.SectionRun.{stands_alone, SharesHead, IsTableRun, IsRunFault};

use crate::fault::RunFault;
use crate::long_head::LongHead;
use crate::section::Section;
use std::alloc::AllocError;
use std::marker::Model;

/// The sections of one whole table: one short section, or one EIT section (table_id 0x4E to 0x6F),
/// or long sections numbered from 0 to the last under one head.
#[derive(Drop)]
pub struct TableRun {
    sections: Vec<Section>,
}

// Clauses see a run as the list of its sections.
impl Model for TableRun {
    ghost use Rattle.std.specs.Prelude.{List, ℕ, All};
    ghost use Rattle.ts_section.specs.ValidSection.{IsSection};
    ghost use Rattle.ts_section.specs.SectionRun.{IsTableRun};

    ghost Value = { List (List ℕ) };

    ghost view = { λ run. run.sections.items };

    ghost invariant = { λ run. IsTableRun run.sections.items × All (λ s. IsSection s) run.sections.items };
}

impl TableRun {
    /// The run of these sections; a list that is not one whole run is refused and dropped. Allocates nothing.
    pub fn of(sections: Vec<Section>) -> Result<TableRun, RunFault>
        ensures same { IfOk result (λ run. run ≡ sections.items) }
        ensures whole { IfOk result (λ run. IsTableRun run) }
        ensures valid { IfOk result (λ run. All (λ s. IsSection s) run) }
        ensures refused { IfErr result (λ fault. IsRunFault sections.items fault.place) }
    {
        match fault_place(&sections) {
            None => Ok(TableRun { sections }),
            Some(place) => Err(RunFault { place }),
        }
    }

    /// The sections in the order of their numbers.
    pub fn sections(&self) -> &[Section]
        ensures same { result.now ≡ self.now }
        ensures whole { IsTableRun self.now }
        ensures valid { All (λ s. IsSection s) self.now }
    {
        &self.sections
    }

    /// A copy of the run.
    pub fn copy(&self) -> Result<TableRun, AllocError>
        ensures { IfOk result (λ run. run ≡ self.now) }
    {
        let mut sections = Vec::new(*self.sections.allocator());
        let held = self.sections();
        for section in held {
            sections.push(section.copy()?)?;
        }
        Ok(TableRun { sections })
    }
}

/// Where the sections stop being a run; none where they are a run.
fn fault_place(sections: &[Section]) -> Option<usize>
    ensures whole { IfNone result (IsTableRun sections.now) }
    ensures valid { IfNone result (All (λ s. IsSection s) sections.now) }
    ensures fault { IfSome result (IsRunFault sections.now) }
{
    let Some(first) = sections.first() else {
        return Some(0);
    };
    let Some(head) = shared_head(first) else {
        return if sections.len() == 1 { None } else { Some(1) };
    };
    let wanted = usize::from(head.last) + 1;
    for (place, section) in sections.iter().enumerate() {
        if !is_member(&head, place, section) {
            return Some(place);
        }
    }
    if sections.len() < wanted {
        Some(sections.len())
    } else {
        None
    }
}

/// The head of a section that is not a table by itself.
fn shared_head(section: &Section) -> Option<LongHead>
    ensures alone { IfNone result (stands_alone section.now ≡ true) }
    ensures together { OnSome result (stands_alone section.now ≡ false) }
    ensures head { IfSome result (λ head. head ≡ head_fields section.now) }
    ensures valid { IsSection section.now }
{
    let head = section.head()?;
    if 0x4E <= head.table_id && head.table_id <= 0x6F {
        None
    } else {
        Some(head)
    }
}

/// Whether the section may be at `place` of the run that a section with the head `first` begins.
fn is_member(first: &LongHead, place: usize, section: &Section) -> bool
    ensures member { IsTrue result ↔ SharesHead first.now place section.now }
    ensures valid { IsSection section.now }
{
    let Some(head) = shared_head(section) else {
        return false;
    };
    head.table_id == first.table_id
        && head.extension == first.extension
        && head.version == first.version
        && head.current == first.current
        && head.last == first.last
        && usize::from(head.number) == place
}
