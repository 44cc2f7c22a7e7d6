//! The EIT sections of a service of this transport stream (ETSI EN 300 468, 5.2.4).

ghost use Rattle.std.specs.Prelude.{◌≡◌};
ghost use Rattle.ts_eit.specs.EitSections;

use ts_section::Section;

/// The table_id of an EIT of the present and the following events of this transport stream.
const PRESENT_ID: u8 = 0x4E;

/// The first table_id of an EIT of this transport stream's schedule.
const FIRST_SCHEDULE: u8 = 0x50;

/// The last table_id of an EIT of this transport stream's schedule.
const LAST_SCHEDULE: u8 = 0x5F;

/// Whether a section is an EIT section of a service of this transport stream, of its present and following events or of
/// its schedule: one of the long form with table_id 0x4E or 0x50 to 0x5F and the service's number as table_id_extension.
pub fn is_of_service(service: u64, section: &Section) -> bool
    ensures { result ≡ EitSections.is_of_service service section.now }
{
    match section.head() {
        Some(head) => is_eit_id(head.table_id) && u64::from(head.extension) == service,
        None => false,
    }
}

/// Whether a table_id is one of the EITs of this transport stream.
fn is_eit_id(id: u8) -> bool
    ensures { result ≡ EitSections.is_eit_id id }
{
    id == PRESENT_ID || (FIRST_SCHEDULE <= id && id <= LAST_SCHEDULE)
}
