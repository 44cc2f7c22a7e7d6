//! The tables that have an element of their own.

ghost use Rattle.std.specs.Prelude.{◌≡◌, option_map, IfSome, IsTrue};
ghost use Rattle.ts_table_rows.specs.TablePages.{table_page, page_sound};
ghost use Rattle.ts_json_tables.specs.KnownPages.{page_named, page_with_id};

use ts_table_pages::{
    bat_layout, cat_layout, eit_layout, nit_layout, pat_layout, pmt_layout, sdt_layout,
};
use ts_table_rows::TableLayout;

/// The layout of the table with this element name; none where no table has it.
pub fn layout_named(name: &str) -> Option<&'static TableLayout>
    ensures page { option_map (λ l. table_page l.now) result ≡ page_named name.now }
    ensures sound { IfSome result (λ l. IsTrue (page_sound (table_page l.now))) }
{
    match name {
        "PAT" => Some(pat_layout()),
        "CAT" => Some(cat_layout()),
        "PMT" => Some(pmt_layout()),
        "NIT" => Some(nit_layout()),
        "BAT" => Some(bat_layout()),
        "SDT" => Some(sdt_layout()),
        "EIT" => Some(eit_layout()),
        _ => None,
    }
}

/// The layout of the table with this table_id; none where no table has it.
pub fn layout_with_id(id: u8) -> Option<&'static TableLayout>
    ensures page { option_map (λ l. table_page l.now) result ≡ page_with_id id }
    ensures known { IfSome result (λ l. page_named (table_page l.now).name ≡ Some (table_page l.now)) }
    ensures sound { IfSome result (λ l. IsTrue (page_sound (table_page l.now))) }
{
    match id {
        0x00 => Some(pat_layout()),
        0x01 => Some(cat_layout()),
        0x02 => Some(pmt_layout()),
        0x40 | 0x41 => Some(nit_layout()),
        0x4A => Some(bat_layout()),
        0x42 | 0x46 => Some(sdt_layout()),
        0x4E..=0x6F => Some(eit_layout()),
        _ => None,
    }
}
