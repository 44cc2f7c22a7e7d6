//! The numbers of sections of EITs present/following, of those that an SDT asks for and of those that come.
ghost use Rattle.std.specs.Prelude.{◌≡◌, ◌<◌, ◌++◌, IfOk, OnOk, filter, map, option_map};
ghost use Rattle.std.specs.List.{All, flat_map};
ghost use Rattle.std.specs.Option.{option_copied};
ghost use Rattle.ts_si.specs.SiTables.{sdt_held, service_item};
ghost use Rattle.plugin_notes.specs.PidPackets.{numbers_below};
ghost use Rattle.monitor_services.specs.CurrentSdt.{items_in};
ghost use Rattle.monitor_rows.specs.KeyRows.{has_number};
ghost use Rattle.monitor_services.specs.EventErrors.{head_events, section_events, service_numbers};
ghost use Rattle.monitor_services.specs.GapErrors as numbers_by;
ghost use Rattle.monitor_services.specs.declared.limits.TheConstants.{EVENT_NUMBERS};

use crate::sorted_numbers::sort_numbers;
use std::alloc::{AllocError, Global};
use ts_section::{LongHead, Section};
use ts_si::{Sdt, SdtService};

/// The table_id of an EIT present/following of the actual stream (ETSI EN 300 468, 5.2.4).
const EVENT_TABLE: u8 = 78;

/// The numbers of those that an SDT asks for, ascending.
pub(crate) fn events_in_order(alloc: Global, sdt: Option<&Sdt>) -> Result<Vec<u32>, AllocError>
    ensures { IfOk result (λ numbers. numbers.items
        ≡ filter (has_number (flat_map service_numbers (items_in (option_map sdt_held (option_copied sdt.entry))))) (numbers_below EVENT_NUMBERS)) }
{
    let mut numbers = Vec::new(alloc);
    if let Some(sdt) = sdt {
        add_services(&mut numbers, sdt.services.as_slice())?;
    }
    sort_numbers(&mut numbers);
    Ok(numbers)
}

// Adds those of services.
fn add_services(numbers: &mut Vec<u32>, services: &[SdtService]) -> Result<(), AllocError>
    ensures added { OnOk result (numbers.new.items ≡ numbers.old.items ++ flat_map service_numbers (map service_item services.now)) }
    ensures below { OnOk result (All (λ n. n < EVENT_NUMBERS) numbers.old.items → All (λ n. n < EVENT_NUMBERS) numbers.new.items) }
{
    for service in services {
        add_service(numbers, service)?;
    }
    Ok(())
}

// Adds those of a service, if it has an EIT present/following.
fn add_service(numbers: &mut Vec<u32>, service: &SdtService) -> Result<(), AllocError>
    ensures added { OnOk result (numbers.new.items ≡ numbers.old.items ++ service_numbers (service_item service.now)) }
    ensures below { OnOk result (All (λ n. n < EVENT_NUMBERS) numbers.old.items → All (λ n. n < EVENT_NUMBERS) numbers.new.items) }
{
    if !service.present {
        return Ok(());
    }
    numbers.push(event_number(service.service_id, 0))?;
    numbers.push(event_number(service.service_id, 1))?;
    Ok(())
}

// The number of a section, 0 or 1, of the EIT present/following of a service.
fn event_number(service: u16, section: u8) -> u32
    requires { section < 2 }
    ensures is { result ≡ numbers_by.event_number service section }
    ensures below { result < EVENT_NUMBERS }
{
    u32::from(service) * 2 + u32::from(section)
}

/// The numbers of those sections on PID 18 that are of EITs present/following, in their order.
pub(crate) fn numbers_of_sections(
    alloc: Global,
    sections: &[Section],
) -> Result<Vec<u32>, AllocError>
    ensures { IfOk result (λ numbers. numbers.items ≡ flat_map section_events sections.now) }
{
    let mut numbers = Vec::new(alloc);
    for section in sections {
        add_head(&mut numbers, section.head())?;
    }
    Ok(numbers)
}

// Adds that of the head of a section, if it is one.
fn add_head(numbers: &mut Vec<u32>, head: Option<LongHead>) -> Result<(), AllocError>
    ensures { OnOk result (numbers.new.items ≡ numbers.old.items ++ head_events head) }
{
    let Some(head) = head else {
        return Ok(());
    };
    if head.table_id == EVENT_TABLE && head.number <= 1 {
        numbers.push(event_number(head.extension, head.number))?;
    }
    Ok(())
}
