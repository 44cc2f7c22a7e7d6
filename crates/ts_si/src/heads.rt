//! The heads of the sections, and the fields outside the items.

ghost use Rattle.std.specs.Prelude.{◌≡◌, ◌≤◌, ◌<◌, [], ◌∷◌, ◌⊎◌, map, None, true};
ghost use Rattle.ts_fields.specs.Fitting.{fits};
ghost use Rattle.ts_fields.specs.Layout.{held, number};
ghost use Rattle.ts_table_rows.specs.TableFitting.{values_fit};
ghost use Rattle.ts_table_pages.specs.SiPages.{network_rows, sdt_page};
ghost use Rattle.ts_si.specs.SiTables;

use ts_fields::FieldValue;
use ts_table_rows::TableHead;

/// The values that a table keeps of the heads of its sections, which are numbered from 0.
pub fn table_head(table_id: u8, extension: u16, version: u8, current: bool) -> TableHead
    ensures head { result ≡ record {
      table_id = table_id;
      extension = extension;
      version = version;
      current = current;
      numbers = None;
    } }
    ensures in_range { extension < 65536 }
{
    TableHead {
        table_id,
        extension,
        version,
        current,
        numbers: None,
    }
}

/// The fields of a NIT or a BAT outside the transport streams have no values. A law; it runs nothing.
pub fn holds_nothing(values: &[FieldValue])
    requires { fits network_rows (map held values.now) ≡ true }
    ensures { map held values.now ≡ [] }
{}

/// The table_id of a NIT: 0x40 of the actual network, 0x41 of another.
pub fn nit_id(actual: bool) -> u8
    ensures { result ≡ SiTables.nit_id actual }
{
    if actual { 0x40 } else { 0x41 }
}

/// Whether a NIT's table_id is that of the actual network.
pub fn is_actual_nit(table_id: u8) -> bool
    requires first { 0x40 ≤ table_id }
    requires last { table_id ≤ 0x41 }
    ensures { SiTables.nit_id result ≡ table_id }
{
    table_id == 0x40
}

/// The table_id of an SDT: 0x42 of the actual transport stream, 0x46 of another.
pub fn sdt_id(actual: bool) -> u8
    ensures { result ≡ SiTables.sdt_id actual }
{
    if actual { 0x42 } else { 0x46 }
}

/// Whether an SDT's table_id is that of the actual transport stream.
pub fn is_actual_sdt(table_id: u8) -> bool
    requires { (table_id ≡ 0x42) ⊎ (table_id ≡ 0x46) }
    ensures { SiTables.sdt_id result ≡ table_id }
{
    table_id == 0x42
}

/// The original_network_id of the fields of the table.
#[tactic(auto, unfolding(ts_fields::specs::Fitting::fits))]
pub fn original_of(values: &[FieldValue]) -> u16
    requires { values_fit sdt_page (map held values.now) ≡ true }
    ensures { map held values.now ≡ number result ∷ [] }
{
    let [FieldValue::Number(id)] = values else {
        return 0;
    };
    *id as u16
}
