//! The layouts of NIT, BAT and SDT, one row a field.

ghost use Rattle.std.specs.Prelude.{◌≡◌, IsTrue};
ghost use Rattle.ts_table_rows.specs.TablePages.{table_page, page_sound};
ghost use Rattle.ts_table_pages.specs.SiPages.{nit_page, bat_page, sdt_page};

use ts_fields::{Field, Kind};
use ts_table_rows::{ItemForm, LoopForm, TableLayout};

/// Network information table (ETSI EN 300 468, 5.2.1).
static NIT: TableLayout = TableLayout {
    name: "NIT",
    ids: &[(0x40, 0x40), (0x41, 0x41)],
    extension: "network_id",
    private_bit: true,
    most: 1021,
    single: false,
    keeps_numbers: false,
    common: &[],
    head: rows! {
        "" Kind::Free(4), None;
    },
    loop_form: LoopForm::Counted,
    items: Some(ItemForm {
        name: "transport_stream",
        rows: rows! {
            "transport_stream_id" Kind::Number(16), None;
            "original_network_id" Kind::Number(16), None;
            "" Kind::Free(4), None;
        },
        described: true,
        counted: true,
    }),
    one_zero: false,
};

/// Bouquet association table (ETSI EN 300 468, 5.2.2).
static BAT: TableLayout = TableLayout {
    name: "BAT",
    ids: &[(0x4A, 0x4A)],
    extension: "bouquet_id",
    private_bit: true,
    most: 1021,
    single: false,
    keeps_numbers: false,
    common: &[],
    head: rows! {
        "" Kind::Free(4), None;
    },
    loop_form: LoopForm::Counted,
    items: Some(ItemForm {
        name: "transport_stream",
        rows: rows! {
            "transport_stream_id" Kind::Number(16), None;
            "original_network_id" Kind::Number(16), None;
            "" Kind::Free(4), None;
        },
        described: true,
        counted: true,
    }),
    one_zero: false,
};

/// Service description table (ETSI EN 300 468, 5.2.3).
static SDT: TableLayout = TableLayout {
    name: "SDT",
    ids: &[(0x42, 0x42), (0x46, 0x46)],
    extension: "transport_stream_id",
    private_bit: true,
    most: 1021,
    single: false,
    keeps_numbers: false,
    common: rows! {
        "original_network_id" Kind::Number(16), None;
    },
    head: rows! {
        "" Kind::Free(8), None;
    },
    loop_form: LoopForm::Absent,
    items: Some(ItemForm {
        name: "service",
        rows: rows! {
            "service_id" Kind::Number(16), None;
            "" Kind::Free(6), None;
            "EIT_schedule" Kind::Flag, Some(0);
            "EIT_present_following" Kind::Flag, Some(0);
            "running_status" Kind::Number(3), Some(0);
            "CA_mode" Kind::Flag, Some(0);
        },
        described: true,
        counted: false,
    }),
    one_zero: false,
};

/// The layout of the network information table. Its own descriptors come before the transport streams, and nothing
/// follows these.
pub fn nit_layout() -> &'static TableLayout
    ensures page { table_page result.now ≡ nit_page }
    ensures sound { IsTrue (page_sound nit_page) }
{
    &NIT
}

/// The layout of the bouquet association table, which differs from that of the NIT in name and table_id alone.
pub fn bat_layout() -> &'static TableLayout
    ensures page { table_page result.now ≡ bat_page }
    ensures sound { IsTrue (page_sound bat_page) }
{
    &BAT
}

/// The layout of the service description table. original_network_id is the same in all its sections.
pub fn sdt_layout() -> &'static TableLayout
    ensures page { table_page result.now ≡ sdt_page }
    ensures sound { IsTrue (page_sound sdt_page) }
{
    &SDT
}
