//! The edit of the sections on the PID of EITs if EIT sections of services are kept or removed (ETSI EN 300 468, 5.2.4).

ghost use Rattle.std.specs.Prelude.{◌≡◌};
ghost use Rattle.plug_service.specs.ServiceEdits;

use crate::present::Present;
use crate::way::Way;
use named_services::ServiceList;
use section_flow::{SectionChange, SectionEdit};
use std::alloc::{AllocError, Global};
use ts_eit::is_of_service;
use ts_section::Section;

// Gives the EIT sections of services as they are, and no other section; if services are removed, it gives all others.
impl SectionEdit for Present {
    ghost use Rattle.plug_service.specs.ServiceEdits.{eit_by};

    ghost edited = { λ present section. eit_by present section };

    fn edit(&self, _alloc: Global, section: &Section) -> Result<SectionChange, AllocError> {
        let is_one = is_of_one(&self.services, section);
        match self.way {
            Way::Keep(_) if is_one => Ok(SectionChange::Stays),
            Way::Keep(_) => Ok(SectionChange::Goes),
            Way::Remove { .. } if is_one => Ok(SectionChange::Goes),
            Way::Remove { .. } => Ok(SectionChange::Stays),
        }
    }
}

/// Whether a section is an EIT section of one of some services.
fn is_of_one(services: &ServiceList, section: &Section) -> bool
    ensures { result ≡ ServiceEdits.is_of_one services.now section.now }
{
    services
        .as_slice()
        .iter()
        .any(|service| is_of_service(u64::from(*service), section))
}
