//! The layouts of PAT, CAT and PMT, one row a field.

ghost use Rattle.std.specs.Prelude.{◌≡◌, IsTrue};
ghost use Rattle.ts_table_rows.specs.TablePages.{table_page, page_sound};
ghost use Rattle.ts_table_pages.specs.PsiPages.{pat_page, cat_page, pmt_page};

use ts_fields::{Field, Kind};
use ts_table_rows::{ItemForm, LoopForm, TableLayout};

/// Program association table (ISO/IEC 13818-1, 2.4.4.3).
static PAT: TableLayout = TableLayout {
    name: "PAT",
    ids: &[(0x00, 0x00)],
    extension: "transport_stream_id",
    private_bit: false,
    most: 1021,
    single: false,
    keeps_numbers: false,
    common: &[],
    head: &[],
    loop_form: LoopForm::Absent,
    items: Some(ItemForm {
        name: "service",
        rows: rows! {
            "service_id" Kind::Number(16), None, Some((1, 65535));
            "" Kind::Free(3), None, None;
            "program_map_PID" Kind::Number(13), None, None;
        },
        described: false,
        counted: false,
    }),
    one_zero: true,
};

/// Conditional access table (ISO/IEC 13818-1, 2.4.4.6).
static CAT: TableLayout = TableLayout {
    name: "CAT",
    ids: &[(0x01, 0x01)],
    extension: "",
    private_bit: false,
    most: 1021,
    single: false,
    keeps_numbers: false,
    common: &[],
    head: &[],
    loop_form: LoopForm::ToEnd,
    items: None,
    one_zero: false,
};

/// Program map table (ISO/IEC 13818-1, 2.4.4.8).
static PMT: TableLayout = TableLayout {
    name: "PMT",
    ids: &[(0x02, 0x02)],
    extension: "service_id",
    private_bit: false,
    most: 1021,
    single: true,
    keeps_numbers: false,
    common: &[],
    head: rows! {
        "" Kind::Free(3), None, None;
        "PCR_PID" Kind::Number(13), Some(8191), None;
        "" Kind::Free(4), None, None;
    },
    loop_form: LoopForm::Counted,
    items: Some(ItemForm {
        name: "component",
        rows: rows! {
            "stream_type" Kind::Number(8), None, None;
            "" Kind::Free(3), None, None;
            "elementary_PID" Kind::Number(13), None, None;
            "" Kind::Free(4), None, None;
        },
        described: true,
        counted: false,
    }),
    one_zero: false,
};

/// The layout of the program association table. Entry 0 names the network PID, and there is at most one.
pub fn pat_layout() -> &'static TableLayout
    ensures page { table_page result.now ≡ pat_page }
    ensures sound { IsTrue (page_sound pat_page) }
{
    &PAT
}

/// The layout of the conditional access table.
pub fn cat_layout() -> &'static TableLayout
    ensures page { table_page result.now ≡ cat_page }
    ensures sound { IsTrue (page_sound cat_page) }
{
    &CAT
}

/// The layout of the program map table.
pub fn pmt_layout() -> &'static TableLayout
    ensures page { table_page result.now ≡ pmt_page }
    ensures sound { IsTrue (page_sound pmt_page) }
{
    &PMT
}
