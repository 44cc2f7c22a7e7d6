//! The edit of EIT sections if a service has another number (ETSI EN 300 468, 5.2.4).

ghost use Rattle.std.specs.Prelude.{◌≡◌, ◌<◌, ◌≤◌, IfOk, Some};
ghost use Rattle.ts_section.specs.SectionFields.{head_of};
ghost use Rattle.plug_rename.specs.Renaming;

use section_flow::{SectionChange, SectionEdit};
use std::alloc::{AllocError, Global};
use ts_eit::is_of_service;
use ts_section::{LongHead, Section};

/// Gives the EIT sections of a service another service_id, with a right CRC, and all other sections as they are.
#[derive(Clone, Copy)]
pub(crate) struct EitNumber {
    pub(crate) service: u16,
    pub(crate) id: Option<u16>,
}

impl SectionEdit for EitNumber {
    ghost use Rattle.plug_rename.specs.Renaming.{eit_change};

    ghost edited = { λ e section. eit_change e.service e.id section };

    fn edit(&self, alloc: Global, section: &Section) -> Result<SectionChange, AllocError> {
        if !is_of_service(u64::from(self.service), section) {
            return Ok(SectionChange::Stays);
        }
        let Some(head) = section.head() else {
            return Ok(SectionChange::Stays);
        };
        let id = self.id.unwrap_or(self.service);
        let edited = section_as(alloc, id, head, section)?;
        Ok(SectionChange::Becomes(edited))
    }
}

/// A section under another number.
fn section_as(
    alloc: Global,
    id: u16,
    head: LongHead,
    section: &Section,
) -> Result<Section, AllocError>
    requires head { head_of section.now ≡ Some head }
    requires valid_id { head.table_id < 255 }
    requires version { head.version < 32 }
    requires numbers { head.number ≤ head.last }
    ensures { IfOk result (λ edited. edited ≡ Renaming.section_as id (Some head) section.now) }
{
    let head = LongHead {
        table_id: head.table_id,
        private: head.private,
        extension: id,
        version: head.version,
        current: head.current,
        number: head.number,
        last: head.last,
    };
    Section::long(alloc, head, section.body())
}
