//! The sections of one key since its last change of version or last number.

ghost use Rattle.std.specs.Prelude.{◌≡◌, ℕ, ◌+◌, ◌==◌, ◌&&◌, ◌++◌, ◌∷◌, [], List, None, replicate, is_some, IfOk, OnOk};
ghost use Rattle.std.specs.List.{list_all, filter_map};
ghost use Rattle.ts_section.specs.SectionFields.{number_of, last_number_of};
ghost use Rattle.ts_demux.specs.Firsts.{with_first};

use crate::changed_table::ChangedTable;
use crate::section_crcs::SectionCrcs;
use std::alloc::{AllocError, Global};
use std::mem;
use ts_section::{LongHead, Section, TableRun};

/// The first section of each number of an era, until its table is complete.
#[derive(Drop)]
pub(crate) struct Era {
    version: u8,
    last: u8,
    given: bool,
    firsts: Vec<Option<Section>>,
    /// Their CRCs, which stay where the table was given.
    crcs: SectionCrcs,
}

impl Era {
    ghost use Rattle.ts_demux.specs.Era.{IsEra, AllBelong};
    ghost use Rattle.ts_demux.specs.Tables.{completed};

    /// An era without a section.
    pub(crate) fn new(alloc: Global, version: u8, last: u8) -> Result<Era, AllocError>
        ensures version { IfOk result (λ era. era.version ≡ version) }
        ensures last { IfOk result (λ era. era.last ≡ last) }
        ensures fresh { IfOk result (λ era. IsEra era []) }
    {
        let numbers = usize::from(last) + 1;
        let firsts = none_of(alloc, numbers)?;
        Ok(Era {
            version,
            last,
            given: false,
            firsts,
            crcs: SectionCrcs::new(alloc, numbers),
        })
    }

    /// Whether a section with this head goes on with the era.
    pub(crate) fn has(&self, head: &LongHead) -> bool
        ensures { result ≡ ((self.now.version == head.now.version) && (self.now.last == head.now.last)) }
    {
        self.version == head.version && self.last == head.last
    }

    /// Processes the next section of the era, which came with the packet at a position, and returns the era's table if
    /// this section completes it. Where it is another one than the first of its number, and no change was noted before, that
    /// is noted.
    pub(crate) fn add(
        &mut self,
        alloc: Global,
        at: u64,
        number: u8,
        section: Section,
        changed: &mut Option<ChangedTable>,
    ) -> Result<Option<TableRun>, AllocError>
        requires number { number ≡ number_of section }
        requires last { self.old.last ≡ last_number_of section }
        ensures version { OnOk result (self.new.version ≡ self.old.version) }
        ensures last { OnOk result (self.new.last ≡ self.old.last) }
        ensures era { OnOk result ((sections : List (List ℕ)) →
            IsEra self.old sections → IsEra self.new (sections ++ section ∷ [])) }
        ensures table { IfOk result (λ table. (sections : List (List ℕ)) →
            IsEra self.old sections → AllBelong section sections → table ≡ completed sections section) }
    {
        let place = usize::from(number);
        self.crcs.compare(at, place, &section, changed);
        if self.given {
            return Ok(None);
        }
        keep_first(&mut self.firsts, place, section);
        if !are_all_there(&self.firsts) {
            return Ok(None);
        }
        self.given = true;
        let firsts = mem::replace(&mut self.firsts, Vec::new(alloc));
        let sections = all_of(alloc, firsts)?;
        Ok(TableRun::of(sections).ok())
    }
}

/// Places without sections.
fn none_of(alloc: Global, count: usize) -> Result<Vec<Option<Section>>, AllocError>
    ensures { IfOk result (λ firsts. firsts.items ≡ replicate count None) }
{
    let mut firsts = Vec::new(alloc);
    for _ in 0..count {
        firsts.push(None)?;
    }
    Ok(firsts)
}

/// Keeps a section at its place, if none is there before it.
fn keep_first(firsts: &mut Vec<Option<Section>>, place: usize, section: Section)
    ensures { firsts.new.items ≡ with_first place section firsts.old.items }
{
    if place < firsts.len() && firsts[place].is_none() {
        firsts[place] = Some(section);
    }
}

/// Whether each place has a section.
fn are_all_there(firsts: &[Option<Section>]) -> bool
    ensures { result ≡ list_all is_some firsts.now }
{
    firsts.iter().all(|first| first.is_some())
}

/// The sections that are there.
fn all_of(alloc: Global, firsts: Vec<Option<Section>>) -> Result<Vec<Section>, AllocError>
    ensures { IfOk result (λ all. all.items ≡ filter_map (λ first. first) firsts.items) }
{
    firsts.into_iter().filter_map(|first| first).collect(alloc)
}
