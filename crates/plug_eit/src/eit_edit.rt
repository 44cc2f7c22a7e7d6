//! The edit of an EIT section (ETSI EN 300 468, 5.2.4).

ghost use Rattle.std.specs.Prelude.{◌≡◌, ◌∷◌, [], IfOk, Some, true, option_map};
ghost use Rattle.ts_section.specs.SectionRun.{stands_alone};
ghost use Rattle.ts_table_rows.specs.RunReading.{read_run};
ghost use Rattle.ts_table_rows.specs.TableSections.{sections_of};
ghost use Rattle.section_flow.specs.FlowStands.{outcome};
ghost use Rattle.ts_table_pages.specs.EitPages.{eit_page};
ghost use Rattle.ts_eit.specs.EitTables.{eit_held};
ghost use Rattle.plug_eit.specs.EitEdit as edit;
ghost use Rattle.plug_eit.specs.EitSettings.{IsValidChange};

use crate::eit_conf::EitConf;
use crate::events::{changed_events, has_event};
use section_flow::{SectionChange, SectionEdit};
use std::alloc::{AllocError, Global};
use ts_eit::{Eit, EventList, is_of_service};
use ts_section::{Section, TableRun};
use ts_table_rows::{TableFault, TableRefusal};

/// The edit of `eit`.
#[derive(Drop)]
pub struct EitEdit {
    pub(crate) conf: EitConf,
    /// The number of the service, where there is one.
    pub(crate) service: Option<u16>,
    pub(crate) ghost valid: { IsValidChange conf },
}

impl SectionEdit for EitEdit {
    ghost use Rattle.plug_eit.specs.EitEdit.{edited_section};

    ghost edited = { λ e section. edited_section e.conf e.service section };

    #[tactic(auto, unfolding(crate::specs::EitEdit::edited_section))]
    fn edit(&self, alloc: Global, section: &Section) -> Result<SectionChange, AllocError> {
        if !is_of_one(self.service, section) {
            return Ok(SectionChange::Stays);
        }
        if self.conf.remove && self.conf.event.is_none() {
            return Ok(SectionChange::Goes);
        }
        let changed = changed_section(alloc, &self.conf, section)?;
        Ok(changed)
    }
}

// Whether a section is an EIT section of the service with this number, if there is one.
fn is_of_one(service: Option<u16>, section: &Section) -> bool
    ensures { result ≡ edit.is_of_one service section.now }
{
    match service {
        Some(service) => is_of_service(u64::from(service), section),
        None => false,
    }
}

// An EIT section of the service after the edit.
#[tactic(auto, unfolding(crate::specs::EitEdit::changed_section))]
fn changed_section(
    alloc: Global,
    conf: &EitConf,
    section: &Section,
) -> Result<SectionChange, AllocError>
    requires valid { IsValidChange conf.now }
    requires alone { stands_alone section.now ≡ true }
    ensures { IfOk result (λ change. outcome section.now change ≡ Some (edit.changed_section conf.now section.now)) }
{
    let Some(eit) = read_eit(alloc, section)? else {
        return Ok(SectionChange::Stays);
    };
    if !has_event(conf, eit.events.as_slice()) {
        return Ok(SectionChange::Stays);
    }
    let new = only_section(alloc, &changed_eit(alloc, conf, eit)?)?;
    Ok(unless_longer(section, new))
}

// The EIT of a section; `None` where the section does not read.
fn read_eit(alloc: Global, section: &Section) -> Result<Option<Eit>, AllocError>
    requires { stands_alone section.now ≡ true }
    ensures { IfOk result (λ eit. option_map eit_held eit ≡ edit.table_read (read_run eit_page (section.now ∷ []))) }
{
    let sections = vec![in alloc; section.copy()?]?;
    let Ok(run) = TableRun::of(sections) else {
        return Ok(None);
    };
    match Eit::read(alloc, &run) {
        Ok(eit) => Ok(Some(eit)),
        Err(TableFault::NoMemory) => Err(AllocError),
        Err(TableFault::Broken { .. }) => Ok(None),
    }
}

// An EIT with its events after the edit.
fn changed_eit(alloc: Global, conf: &EitConf, eit: Eit) -> Result<Eit, AllocError>
    requires { IsValidChange conf.now }
    ensures { IfOk result (λ changed. eit_held changed ≡ edit.changed_table conf.now (eit_held eit)) }
{
    let Eit {
        table_id,
        service_id,
        version,
        current,
        stream_id,
        original_id,
        number,
        last,
        segment_last,
        last_table_id,
        events,
    } = eit;
    let events = changed_events(alloc, conf, events.into_vec())?;
    Ok(Eit {
        table_id,
        service_id,
        version,
        current,
        stream_id,
        original_id,
        number,
        last,
        segment_last,
        last_table_id,
        events: EventList::of(events),
    })
}

// The one section of an EIT; `None` where it would be too long.
fn only_section(alloc: Global, eit: &Eit) -> Result<Option<Section>, AllocError>
    ensures { IfOk result (λ new. new ≡ edit.only_section (sections_of eit_page (eit_held eit.now))) }
{
    match eit.sections(alloc) {
        Ok(sections) => Ok(alone(sections)),
        Err(TableRefusal::NoMemory) => Err(AllocError),
        Err(TableRefusal::TooLarge { .. } | TableRefusal::TooMany) => Ok(None),
    }
}

// The one section of a list of one.
fn alone(sections: Vec<Section>) -> Option<Section>
    ensures { result ≡ edit.alone sections.items }
{
    let mut sections = sections;
    if sections.len() != 1 {
        return None;
    }
    sections.pop()
}

// A new section in the place of another one, where it is not longer.
fn unless_longer(section: &Section, new: Option<Section>) -> SectionChange
    ensures { outcome section.now result ≡ Some (edit.unless_longer section.now new) }
{
    match new {
        Some(new) if new.bytes().len() <= section.bytes().len() => SectionChange::Becomes(new),
        _ => SectionChange::Stays,
    }
}
