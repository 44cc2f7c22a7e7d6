//! The layout of the EIT, one row a field.

ghost use Rattle.std.specs.Prelude.{◌≡◌, IsTrue};
ghost use Rattle.ts_table_rows.specs.TablePages.{table_page, page_sound};
ghost use Rattle.ts_table_pages.specs.EitPages.{eit_page};

use ts_fields::{Field, Kind};
use ts_table_rows::{ItemForm, LoopForm, TableLayout};

/// Event information table (ETSI EN 300 468, 5.2.4).
static EIT: TableLayout = TableLayout {
    name: "EIT",
    ids: &[(0x4E, 0x6F)],
    extension: "service_id",
    private_bit: true,
    most: 4093,
    single: true,
    keeps_numbers: true,
    common: rows! {
        "transport_stream_id" Kind::Number(16), None;
        "original_network_id" Kind::Number(16), None;
    },
    head: rows! {
        "segment_last_section_number" Kind::Number(8), Some(0);
        "last_table_id" Kind::Number(8), None;
    },
    loop_form: LoopForm::Absent,
    items: Some(ItemForm {
        name: "event",
        rows: rows! {
            "event_id" Kind::Number(16), None;
            "start_time" Kind::Start, None;
            "duration" Kind::Duration, None;
            "running_status" Kind::Number(3), Some(0);
            "CA_mode" Kind::Flag, Some(0);
        },
        described: true,
        counted: false,
    }),
    one_zero: false,
};

/// The layout of the event information table. It has one section, which keeps its section numbers.
pub fn eit_layout() -> &'static TableLayout
    ensures page { table_page result.now ≡ eit_page }
    ensures sound { IsTrue (page_sound eit_page) }
{
    &EIT
}
