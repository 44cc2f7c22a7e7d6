//! Errors, told one after another.
ghost use Rattle.std.specs.Prelude.{◌≡◌, ◌++◌, ◌∷◌, [], OnOk, map, option_to_list, if◌then◌else◌};
ghost use Rattle.monitor_priorities.specs.RowErrors.{gap_error, here, table_error};

use monitor_keys::Gap;
use monitor_lines::{Detail, Indicator, Missing, MonitorError};
use std::alloc::AllocError;

/// Tells an error of the packet at a position.
pub(crate) fn tell(
    errors: &mut Vec<MonitorError>,
    at: u64,
    indicator: Indicator,
    detail: Detail,
) -> Result<(), AllocError>
    ensures { OnOk result (errors.new.items ≡ errors.old.items ++ here indicator at detail ∷ []) }
{
    errors.push(MonitorError {
        known: at,
        at,
        indicator,
        detail,
    })?;
    Ok(())
}

/// Tells it where it is one.
pub(crate) fn tell_if(
    errors: &mut Vec<MonitorError>,
    is_error: bool,
    at: u64,
    indicator: Indicator,
    detail: Detail,
) -> Result<(), AllocError>
    ensures { OnOk result (errors.new.items ≡ errors.old.items ++ (if is_error then here indicator at detail ∷ [] else [])) }
{
    if is_error {
        tell(errors, at, indicator, detail)?;
    }
    Ok(())
}

/// Tells a gap, where there is one, with the packet at a position.
pub(crate) fn tell_gap(
    errors: &mut Vec<MonitorError>,
    at: u64,
    indicator: Indicator,
    missing: Missing,
    gap: Option<Gap>,
) -> Result<(), AllocError>
    ensures { OnOk result (errors.new.items ≡ errors.old.items ++ map (gap_error indicator missing at) (option_to_list gap)) }
{
    if let Some(gap) = gap {
        errors.push(MonitorError {
            known: at,
            at: gap.at,
            indicator,
            detail: Detail::Gap(missing, gap.milliseconds()),
        })?;
    }
    Ok(())
}

/// Tells the table_ids of sections that do not belong on the PID of the packet at a position.
pub(crate) fn tell_tables(
    errors: &mut Vec<MonitorError>,
    at: u64,
    indicator: Indicator,
    tables: &[u8],
) -> Result<(), AllocError>
    ensures { OnOk result (errors.new.items ≡ errors.old.items ++ map (table_error indicator at) tables.now) }
{
    for table in tables {
        tell(errors, at, indicator, Detail::Table(*table))?;
    }
    Ok(())
}
