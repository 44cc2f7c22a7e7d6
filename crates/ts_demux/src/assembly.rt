//! Sections come in, and tables go out.

ghost use Rattle.std.specs.Prelude.{◌≡◌, ℕ, ◌++◌, ◌∷◌, [], List, Some, true, false, IfOk, OnOk, OnErr, IsErr};
ghost use Rattle.indexmap.specs.IndexMap.{get};
ghost use Rattle.ts_section.specs.SectionFields.{number_of, version_of, last_number_of};
ghost use Rattle.ts_section.specs.SectionRun.{stands_alone};
ghost use Rattle.ts_demux.specs.Keys.{key_eq};
ghost use Rattle.ts_demux.specs.declared.table_key.TableKey.{TableKey};
ghost use Rattle.ts_demux.specs.Era.{HasEra, EntryStands, EraStands, AllBelong, entry_goes_on};
ghost use Rattle.std.specs.Option.{option_copied, option_to_list};
ghost use Rattle.ts_demux.specs.Tables.{completed};

use crate::changed_table::ChangedTable;
use crate::era::Era;
use crate::failure_latch::FailureLatch;
use crate::table_key::{TableKey, head_of_many};
use indexmap::IndexMap;
use std::alloc::{AllocError, Global};
use std::marker::Model;
use ts_section::{LongHead, Section, TableRun};

/// The eras of the keys, in the order in which the keys were first seen.
type Eras = IndexMap<TableKey, Era>;

/// Assembles tables from sections. A short section and an EIT section are each a table at once; the other
/// sections of a table_id, an extension and a current flag fall into eras, and a new era begins where the version
/// or the last number changes. An era's table is given once, at the first section after which each number from
/// 0 to the last was seen, and has the first section of each number.
///
/// Clauses see the last era of each key, and whether a call ran out of memory.
#[derive(Drop)]
pub struct Assembly {
    eras: Eras,
    /// The first table that changed without a new version.
    changed: Option<ChangedTable>,
    failed: FailureLatch,
}

impl Model for Assembly {
    ghost use Rattle.ts_demux.specs.AssemblyState.{AssemblyState};

    ghost Value = { AssemblyState };

    ghost view = { λ a. record { eras = a.eras.entries; failed = a.failed } };
}

impl Assembly {
    ghost use Rattle.ts_demux.specs.Tables.{table_at, tables_of};
    ghost use Rattle.ts_demux.specs.AssemblyState.{StandsFor};

    /// An assembly that was given nothing.
    pub fn new(alloc: Global) -> Result<Assembly, AllocError>
        ensures { IfOk result (λ assembly. StandsFor assembly []) }
    {
        Ok(Assembly {
            eras: IndexMap::new(alloc),
            changed: None,
            failed: FailureLatch::unset(),
        })
    }

    /// Processes the next section, which came with the packet at a position, and returns the table that it completes, if it
    /// completes one. After `AllocError` every later call returns `AllocError`.
    pub fn add(&mut self, at: u64, section: Section) -> Result<Option<TableRun>, AllocError>
        ensures completes { IfOk result (λ table. (before : List (List ℕ)) → StandsFor self.old before → table ≡ table_at before section) }
        ensures tables { IfOk result (λ table. (before : List (List ℕ)) → StandsFor self.old before →
            tables_of (before ++ section ∷ []) ≡ tables_of before ++ option_to_list table) }
        ensures stands { OnOk result ((before : List (List ℕ)) → StandsFor self.old before → StandsFor self.new (before ++ section ∷ [])) }
        ensures spent { OnErr result (self.new.failed ≡ true) }
        ensures stays_spent { self.old.failed ≡ true → IsErr result }
    {
        self.failed.check()?;
        let answer = self.take(at, section);
        let table = self.failed.note(answer)?;
        Ok(table)
    }

    /// The first table that changed without a new version, by the CRCs of its sections.
    pub fn changed(&self) -> Option<ChangedTable> {
        self.changed
    }

    /// Processes the next section, unless an earlier call ran out of memory.
    fn take(&mut self, at: u64, section: Section) -> Result<Option<TableRun>, AllocError>
        ensures completes { IfOk result (λ table. (before : List (List ℕ)) → StandsFor self.old before → table ≡ table_at before section) }
        ensures stands { OnOk result ((before : List (List ℕ)) → StandsFor self.old before → StandsFor self.new (before ++ section ∷ [])) }
        ensures same { self.new.failed ≡ self.old.failed }
    {
        let alloc = *self.eras.allocator();
        let Some(head) = head_of_many(&section) else {
            let table = table_alone(alloc, section)?;
            return Ok(table);
        };
        let key = TableKey::of(&head);
        begin_era(&mut self.eras, key, &head)?;
        let changed = &mut self.changed;
        let table = add_to_era(&mut self.eras, key, at, head.number, section, changed)?;
        Ok(table)
    }
}

/// Makes the entry of the key the era that a section with this head goes on with.
fn begin_era(eras: &mut Eras, key: TableKey, head: &LongHead) -> Result<(), AllocError>
    ensures has_era { OnOk result (HasEra (get key_eq eras.new key) head.now.version head.now.last) }
    ensures stands { OnOk result ((sections : List (List ℕ)) →
        EntryStands (get key_eq eras.old key) head.now.version head.now.last sections → EraStands (get key_eq eras.new key) sections) }
    ensures others { OnOk result ((other : TableKey) → key_eq key other ≡ false → get key_eq eras.new other ≡ get key_eq eras.old other) }
{
    if !goes_on(eras.get(&key), head) {
        let era = Era::new(*eras.allocator(), head.version, head.last)?;
        eras.insert(key, era)?;
    }
    Ok(())
}

/// Processes the next section of the era of a key.
fn add_to_era(
    eras: &mut Eras,
    key: TableKey,
    at: u64,
    number: u8,
    section: Section,
    changed: &mut Option<ChangedTable>,
) -> Result<Option<TableRun>, AllocError>
    requires number { number ≡ number_of section }
    requires has_era { HasEra (get key_eq eras.old key) (version_of section) (last_number_of section) }
    ensures has_era { OnOk result (HasEra (get key_eq eras.new key) (version_of section) (last_number_of section)) }
    ensures stands { OnOk result ((sections : List (List ℕ)) →
        EraStands (get key_eq eras.old key) sections → EraStands (get key_eq eras.new key) (sections ++ section ∷ [])) }
    ensures table { IfOk result (λ table. (sections : List (List ℕ)) →
        EraStands (get key_eq eras.old key) sections → AllBelong section sections → table ≡ completed sections section) }
    ensures others { OnOk result ((other : TableKey) → key_eq key other ≡ false → get key_eq eras.new other ≡ get key_eq eras.old other) }
{
    let alloc = *eras.allocator();
    match eras.get_mut(&key) {
        Some(era) => era.add(alloc, at, number, section, changed),
        None => Ok(None),
    }
}

/// The table of a section that is one by itself.
fn table_alone(alloc: Global, section: Section) -> Result<Option<TableRun>, AllocError>
    requires { stands_alone section ≡ true }
    ensures { IfOk result (λ table. table ≡ Some (section ∷ [])) }
{
    let mut sections = Vec::with_capacity(alloc, 1)?;
    sections.push(section)?;
    Ok(TableRun::of(sections).ok())
}

/// Whether a section with this head goes on with the era of its key.
fn goes_on(era: Option<&Era>, head: &LongHead) -> bool
    ensures { result ≡ entry_goes_on (option_copied era.entry) head.now.version head.now.last }
{
    match era {
        Some(era) => era.has(head),
        None => false,
    }
}
