//! The tables of the short form that have an element of their own, but for the TOT.

ghost use Rattle.std.specs.Prelude.{◌≡◌, option_map, IfSome, IsTrue};
ghost use Rattle.ts_fields.specs.Bodies.{page, page_sound};
ghost use Rattle.ts_json_tables.specs.ShortPages.{short_page_named, short_page_of};

use ts_fields::{Field, ItemLayout, Kind, Layout};
use ts_pages::rows;

/// The date and the time in UTC (ETSI EN 300 468, 5.2.5). The tag is the table_id.
static TDT: Layout = Layout {
    tag: 0x70,
    name: "TDT",
    head: rows! {
        "UTC_time" Start;
    },
    items: None,
    counted: None,
};

/// The running status of events (ETSI EN 300 468, 5.2.7). The tag is the table_id.
static RST: Layout = Layout {
    tag: 0x71,
    name: "RST",
    head: rows! {},
    items: Some(ItemLayout {
        name: "event",
        rows: rows! {
            "transport_stream_id" Number(16);
            "original_network_id" Number(16);
            "service_id" Number(16);
            "event_id" Number(16);
            "reserved" Reserved(5);
            "running_status" Number(3);
        },
    }),
    counted: None,
};

/// The page of a table_id of the short form; none where it has none.
pub fn short_layout_of(id: u8) -> Option<&'static Layout>
    ensures page { option_map (λ l. page l.now) result ≡ short_page_of id }
    ensures sound { IfSome result (λ l. IsTrue (page_sound (page l.now))) }
{
    match id {
        0x70 => Some(&TDT),
        0x71 => Some(&RST),
        _ => None,
    }
}

/// The page of a table of the short form with this element name; none where no such table has it.
pub fn short_layout_named(name: &str) -> Option<&'static Layout>
    ensures page { option_map (λ l. page l.now) result ≡ short_page_named name.now }
    ensures sound { IfSome result (λ l. IsTrue (page_sound (page l.now))) }
{
    match name {
        "TDT" => Some(&TDT),
        "RST" => Some(&RST),
        _ => None,
    }
}
