//! The character tables of texts, by their selecting bytes and by their names.

ghost use Rattle.std.specs.Prelude.{◌≡◌, ◌≤◌, map, option_map, length, IfSome};
ghost use Rattle.ts_charsets.specs.TextTables.{named_in, selected_in, table_named, text_table, text_tables};

use crate::charset::Charset;

/// A character table as a text selects it (ETSI EN 300 468, annex A, A.2).
#[derive(Clone, Copy)]
pub struct TextTable {
    /// Its name, which is this project's own.
    pub name: &'static str,
    /// The bytes at the head of a text that select it.
    pub selects: &'static [u8],
    /// How the bytes after those are characters.
    pub charset: Charset,
}

// The tables, in the order of their selecting bytes; the one without such bytes is the last.
static TEXT_TABLES: [TextTable; 27] = [
    TextTable {
        name: "ISO-8859-5",
        selects: &[0x01],
        charset: Charset::Part5,
    },
    TextTable {
        name: "ISO-8859-6",
        selects: &[0x02],
        charset: Charset::Part6,
    },
    TextTable {
        name: "ISO-8859-7",
        selects: &[0x03],
        charset: Charset::Part7,
    },
    TextTable {
        name: "ISO-8859-8",
        selects: &[0x04],
        charset: Charset::Part8,
    },
    TextTable {
        name: "ISO-8859-9",
        selects: &[0x05],
        charset: Charset::Part9,
    },
    TextTable {
        name: "ISO-8859-10",
        selects: &[0x06],
        charset: Charset::Part10,
    },
    TextTable {
        name: "ISO-8859-11",
        selects: &[0x07],
        charset: Charset::Part11,
    },
    TextTable {
        name: "ISO-8859-13",
        selects: &[0x09],
        charset: Charset::Part13,
    },
    TextTable {
        name: "ISO-8859-14",
        selects: &[0x0A],
        charset: Charset::Part14,
    },
    TextTable {
        name: "ISO-8859-15",
        selects: &[0x0B],
        charset: Charset::Part15,
    },
    TextTable {
        name: "ISO-8859-1-long",
        selects: &[0x10, 0x00, 0x01],
        charset: Charset::Part1,
    },
    TextTable {
        name: "ISO-8859-2-long",
        selects: &[0x10, 0x00, 0x02],
        charset: Charset::Part2,
    },
    TextTable {
        name: "ISO-8859-3-long",
        selects: &[0x10, 0x00, 0x03],
        charset: Charset::Part3,
    },
    TextTable {
        name: "ISO-8859-4-long",
        selects: &[0x10, 0x00, 0x04],
        charset: Charset::Part4,
    },
    TextTable {
        name: "ISO-8859-5-long",
        selects: &[0x10, 0x00, 0x05],
        charset: Charset::Part5,
    },
    TextTable {
        name: "ISO-8859-6-long",
        selects: &[0x10, 0x00, 0x06],
        charset: Charset::Part6,
    },
    TextTable {
        name: "ISO-8859-7-long",
        selects: &[0x10, 0x00, 0x07],
        charset: Charset::Part7,
    },
    TextTable {
        name: "ISO-8859-8-long",
        selects: &[0x10, 0x00, 0x08],
        charset: Charset::Part8,
    },
    TextTable {
        name: "ISO-8859-9-long",
        selects: &[0x10, 0x00, 0x09],
        charset: Charset::Part9,
    },
    TextTable {
        name: "ISO-8859-10-long",
        selects: &[0x10, 0x00, 0x0A],
        charset: Charset::Part10,
    },
    TextTable {
        name: "ISO-8859-11-long",
        selects: &[0x10, 0x00, 0x0B],
        charset: Charset::Part11,
    },
    TextTable {
        name: "ISO-8859-13-long",
        selects: &[0x10, 0x00, 0x0D],
        charset: Charset::Part13,
    },
    TextTable {
        name: "ISO-8859-14-long",
        selects: &[0x10, 0x00, 0x0E],
        charset: Charset::Part14,
    },
    TextTable {
        name: "ISO-8859-15-long",
        selects: &[0x10, 0x00, 0x0F],
        charset: Charset::Part15,
    },
    TextTable {
        name: "UTF-16",
        selects: &[0x11],
        charset: Charset::Utf16,
    },
    TextTable {
        name: "UTF-8",
        selects: &[0x15],
        charset: Charset::Utf8,
    },
    TextTable {
        name: "ISO-6937",
        selects: &[],
        charset: Charset::Latin,
    },
];

/// All tables, in the order of their selecting bytes; the one without such bytes is the last.
pub fn all_text_tables() -> &'static [TextTable]
    ensures { map text_table result.now ≡ text_tables }
{
    &TEXT_TABLES
}

/// The table of this name; `None` where there is none such.
#[tactic(auto, unfolding(crate::specs::TextTables::table_named))]
pub fn text_table_named(name: &str) -> Option<&'static TextTable>
    ensures { option_map (λ t. text_table t.now) result ≡ table_named name.now }
{
    find_named(all_text_tables(), name)
}

// The first of some tables that has this name.
fn find_named<'a>(tables: &'a [TextTable], name: &str) -> Option<&'a TextTable>
    ensures { option_map (λ t. text_table t.now) result ≡ named_in (map text_table tables.now) name.now }
{
    for table in tables {
        if table.name == name {
            return Some(table);
        }
    }
    None
}

/// The table that a text selects by its first bytes.
pub(crate) fn text_table_of(bytes: &[u8]) -> Option<&'static TextTable>
    ensures value { option_map (λ t. text_table t.now) result ≡ selected_in text_tables bytes.now }
    ensures inside { IfSome result (λ t. length t.now.selects.now ≤ length bytes.now) }
{
    find_selected(all_text_tables(), bytes)
}

// The first of some tables whose selecting bytes a text begins with.
fn find_selected<'a>(tables: &'a [TextTable], bytes: &[u8]) -> Option<&'a TextTable>
    ensures value { option_map (λ t. text_table t.now) result ≡ selected_in (map text_table tables.now) bytes.now }
    ensures inside { IfSome result (λ t. length t.now.selects.now ≤ length bytes.now) }
{
    for table in tables {
        if bytes.starts_with(table.selects) {
            return Some(table);
        }
    }
    None
}
