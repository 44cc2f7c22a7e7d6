//! The numbers of the PMTs that a PAT asks for, and of those that come.
ghost use Rattle.std.specs.Prelude.{◌≡◌, ◌<◌, ◌++◌, ℕ, Some, IfOk, OnOk, filter, map, option_map, option_to_list};
ghost use Rattle.std.specs.List.{All, filter_map, flat_map};
ghost use Rattle.std.specs.Option.{option_copied};
ghost use Rattle.ts_psi.specs.PatTables.{pat_held, service_item};
ghost use Rattle.plugin_notes.specs.PidPackets.{numbers_below};
ghost use Rattle.plug_psi.specs.InForce.{service_in};
ghost use Rattle.monitor_rows.specs.KeyRows.{has_number};
ghost use Rattle.monitor_services.specs.GapErrors as numbers_by;
ghost use Rattle.monitor_services.specs.PmtErrors.{head_number, numbers_of, pat_numbers, section_number};
ghost use Rattle.monitor_services.specs.declared.limits.TheConstants.{PMT_NUMBERS};

use crate::sorted_numbers::sort_numbers;
use plug_psi::{number_and_pid, pid_of_service};
use std::alloc::{AllocError, Global};
use ts_psi::{Pat, PatService};
use ts_section::{LongHead, Section};

/// The table_id of a PMT (ISO/IEC 13818-1, 2.4.4.4).
const PMT_TABLE: u8 = 2;

/// The numbers of the PMTs of the services of a PAT, ascending.
pub(crate) fn numbers_in_order(alloc: Global, pat: Option<&Pat>) -> Result<Vec<u32>, AllocError>
    ensures { IfOk result (λ numbers. numbers.items
        ≡ filter (has_number (pat_numbers (option_map pat_held (option_copied pat.entry)))) (numbers_below PMT_NUMBERS)) }
{
    let mut numbers = Vec::new(alloc);
    if let Some(pat) = pat {
        add_services(&mut numbers, pat, pat.services.as_slice())?;
    }
    sort_numbers(&mut numbers);
    Ok(numbers)
}

// Adds those of some services of a PAT.
fn add_services(
    numbers: &mut Vec<u32>,
    pat: &Pat,
    services: &[PatService],
) -> Result<(), AllocError>
    ensures added { OnOk result (numbers.new.items
        ≡ numbers.old.items ++ flat_map (numbers_of (option_map pat_held (Some pat.now))) (filter_map service_in (map service_item services.now))) }
    ensures below { OnOk result (All (λ n. n < PMT_NUMBERS) numbers.old.items → All (λ n. n < PMT_NUMBERS) numbers.new.items) }
{
    for service in services {
        let (id, _) = number_and_pid(service);
        add_service(numbers, id, pid_of_service(Some(pat), id))?;
    }
    Ok(())
}

// Adds that of a service, if it has a PID.
fn add_service(numbers: &mut Vec<u32>, service: u16, pid: Option<u16>) -> Result<(), AllocError>
    ensures added { OnOk result (numbers.new.items ≡ numbers.old.items ++ map (numbers_by.pmt_number service) (option_to_list pid)) }
    ensures below { OnOk result (All (λ n. n < PMT_NUMBERS) numbers.old.items → All (λ n. n < PMT_NUMBERS) numbers.new.items) }
{
    match pid {
        Some(pid) => {
            numbers.push(pmt_number(service, pid))?;
            Ok(())
        }
        None => Ok(()),
    }
}

// The number of the PMT of a service on a PID.
fn pmt_number(service: u16, pid: u16) -> u32
    ensures is { result ≡ numbers_by.pmt_number service pid }
    ensures below { result < PMT_NUMBERS }
{
    u32::from(service) * 8192 + u32::from(pid)
}

/// The numbers of those sections on a PID that are of PMTs, in their order.
pub(crate) fn numbers_of_sections(
    alloc: Global,
    pid: u16,
    sections: &[Section],
) -> Result<Vec<u32>, AllocError>
    ensures { IfOk result (λ numbers. numbers.items ≡ flat_map (section_number pid) sections.now) }
{
    let mut numbers = Vec::new(alloc);
    for section in sections {
        add_head(&mut numbers, pid, section.head())?;
    }
    Ok(numbers)
}

// Adds that of the head of a section on a PID, if it is one of a PMT.
fn add_head(numbers: &mut Vec<u32>, pid: u16, head: Option<LongHead>) -> Result<(), AllocError>
    ensures { OnOk result (numbers.new.items ≡ numbers.old.items ++ head_number pid head) }
{
    let Some(head) = head else {
        return Ok(());
    };
    if head.table_id == PMT_TABLE {
        numbers.push(pmt_number(head.extension, pid))?;
    }
    Ok(())
}
