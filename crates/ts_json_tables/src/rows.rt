//! The attributes of a table's element, in order.

ghost use Rattle.std.specs.Prelude.{◌≡◌, ◌++◌, true, IfOk, OnOk};
ghost use Rattle.ts_fields.specs.Layout.{row, rows_of};
ghost use Rattle.ts_table_rows.specs.TablePages.{table_page};
ghost use Rattle.ts_json_tables.specs.ElementRows;
ghost use Rattle.ts_json_tables.specs.ElementRows.{id_rows, extension_row, extension_rows, kept_rows, network_rows, table_id_row};

use std::alloc::{AllocError, Global};
use ts_fields::{Field, Kind};
use ts_table_rows::TableLayout;

/// version_number.
pub static VERSION: Field = Field {
    name: "version",
    kind: Kind::Number(5),
    absent: Some(0),
    range: None,
};

/// current_next_indicator.
pub static CURRENT: Field = Field {
    name: "current",
    kind: Kind::Flag,
    absent: Some(1),
    range: None,
};

/// Whether a table of two table_ids has the first of them.
pub static ACTUAL: Field = Field {
    name: "actual",
    kind: Kind::Flag,
    absent: Some(1),
    range: None,
};

/// The bit after section_syntax_indicator.
pub static PRIVATE: Field = Field {
    name: "private",
    kind: Kind::Flag,
    absent: Some(1),
    range: None,
};

/// section_number.
pub static SECTION_NUMBER: Field = Field {
    name: "section_number",
    kind: Kind::Number(8),
    absent: Some(0),
    range: None,
};

/// last_section_number.
pub static LAST_SECTION_NUMBER: Field = Field {
    name: "last_section_number",
    kind: Kind::Number(8),
    absent: Some(0),
    range: None,
};

/// The PID of the entry with number 0 (network_PID).
pub static NETWORK_PID: Field = Field {
    name: "network_PID",
    kind: Kind::Number(13),
    absent: None,
    range: None,
};

/// The table_id of a table given by its bytes.
pub static ANY_TABLE_ID: Field = Field {
    name: "table_id",
    kind: Kind::Number(8),
    absent: None,
    range: Some((0, 254)),
};

/// The table_id_extension of a table given by its bytes.
pub static ANY_EXTENSION: Field = Field {
    name: "table_id_extension",
    kind: Kind::Number(16),
    absent: None,
    range: None,
};

/// The bytes of a section of the short form.
pub static SHORT_PAYLOAD: Field = Field {
    name: "payload",
    kind: Kind::Hex,
    absent: None,
    range: Some((0, 4093)),
};

/// The bytes of a section of the long form.
pub static LONG_PAYLOAD: Field = Field {
    name: "payload",
    kind: Kind::Hex,
    absent: None,
    range: Some((0, 4084)),
};

/// The table_id of a table that may have several.
pub fn table_id_field(range: (u8, u8)) -> Field
    ensures { row result ≡ table_id_row range }
{
    Field {
        name: "table_id",
        kind: Kind::Number(8),
        absent: None,
        range: Some((u64::from(range.0), u64::from(range.1))),
    }
}

/// table_id_extension under the table's own name for it.
pub fn extension_field(name: &'static str) -> Field
    ensures { row result ≡ extension_row name.now }
{
    Field {
        name,
        kind: Kind::Number(16),
        absent: None,
        range: None,
    }
}

/// Appends the row for the table_id of a table, where it needs one.
fn push_id(rows: &mut Vec<Field>, ids: &[(u8, u8)]) -> Result<(), AllocError>
    ensures { OnOk result (rows_of rows.new.items ≡ rows_of rows.old.items ++ id_rows ids.now) }
{
    match ids {
        [] => Ok(()),
        [range] => {
            if range.0 == range.1 {
                return Ok(());
            }
            rows.push(table_id_field(*range))?;
            Ok(())
        }
        _ => {
            rows.push(ACTUAL)?;
            Ok(())
        }
    }
}

/// Appends the row of table_id_extension, where it is not reserved.
fn push_extension(rows: &mut Vec<Field>, name: &'static str) -> Result<(), AllocError>
    ensures { OnOk result (rows_of rows.new.items ≡ rows_of rows.old.items ++ extension_rows name.now) }
{
    if name.is_empty() {
        return Ok(());
    }
    rows.push(extension_field(name))?;
    Ok(())
}

/// Appends the rows of the section numbers.
fn push_numbers(rows: &mut Vec<Field>) -> Result<(), AllocError>
    ensures { OnOk result (rows_of rows.new.items ≡ rows_of rows.old.items ++ kept_rows true) }
{
    rows.extend_from_slice(&[SECTION_NUMBER, LAST_SECTION_NUMBER])?;
    Ok(())
}

/// Appends the rows of the section numbers, where they are kept.
fn push_kept(rows: &mut Vec<Field>, kept: bool) -> Result<(), AllocError>
    ensures { OnOk result (rows_of rows.new.items ≡ rows_of rows.old.items ++ kept_rows kept) }
{
    if !kept {
        return Ok(());
    }
    push_numbers(rows)
}

/// Appends the row of the PID of the entry with number 0, where there is one.
fn push_network(rows: &mut Vec<Field>, network: bool) -> Result<(), AllocError>
    ensures { OnOk result (rows_of rows.new.items ≡ rows_of rows.old.items ++ network_rows network) }
{
    if !network {
        return Ok(());
    }
    rows.push(NETWORK_PID)?;
    Ok(())
}

/// Appends the attributes of a table of a layout after those of each table, with or without the PID of the entry
/// with number 0.
fn push_rows(rows: &mut Vec<Field>, layout: &TableLayout, network: bool) -> Result<(), AllocError>
    ensures { OnOk result (rows_of rows.new.items
        ≡ rows_of rows.old.items ++ ((id_rows layout.now.ids.now ++ extension_rows layout.now.extension.now)
        ++ (rows_of layout.now.common.now ++ (kept_rows layout.now.keeps_numbers
        ++ (rows_of layout.now.head.now ++ network_rows network))))) }
{
    push_id(rows, layout.ids)?;
    push_extension(rows, layout.extension)?;
    rows.extend_from_slice(layout.common)?;
    push_kept(rows, layout.keeps_numbers)?;
    rows.extend_from_slice(layout.head)?;
    push_network(rows, network)
}

/// The attributes of a table of a layout, with or without the PID of the entry with number 0.
pub fn element_rows(
    alloc: Global,
    layout: &TableLayout,
    network: bool,
) -> Result<Vec<Field>, AllocError>
    ensures { IfOk result (λ v. rows_of v.items ≡ ElementRows.element_rows (table_page layout.now) network) }
{
    let mut rows = Vec::from_slice(alloc, &[VERSION, CURRENT])?;
    push_rows(&mut rows, layout, network)?;
    Ok(rows)
}

/// The attributes of sections of the long form, with or without their numbers.
pub fn long_rows(alloc: Global, kept: bool) -> Result<Vec<Field>, AllocError>
    ensures { IfOk result (λ v. rows_of v.items ≡ ElementRows.long_rows kept) }
{
    let mut rows = Vec::from_slice(
        alloc,
        &[VERSION, CURRENT, ANY_TABLE_ID, ANY_EXTENSION, PRIVATE],
    )?;
    push_kept(&mut rows, kept)?;
    Ok(rows)
}

/// The attributes of a section of the short form.
pub fn short_rows() -> [Field; 3]
    ensures { rows_of result ≡ ElementRows.short_rows }
{
    [ANY_TABLE_ID, PRIVATE, SHORT_PAYLOAD]
}

/// The attribute of a section of the long form.
pub fn section_rows() -> [Field; 1]
    ensures { rows_of result ≡ ElementRows.section_rows }
{
    [LONG_PAYLOAD]
}
