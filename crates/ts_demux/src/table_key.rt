//! The key under which the sections of a table are kept.

ghost use Rattle.std.specs.Prelude.{◌≡◌, true, false, IfSome, IfNone};
ghost use Rattle.ts_section.specs.SectionFields.{head_fields};
ghost use Rattle.ts_section.specs.SectionRun.{stands_alone};

use ts_section::{LongHead, Section, TableRun};

/// What the sections of one table share besides version and last number: table_id, table_id_extension and
/// current_next_indicator (ISO/IEC 13818-1, 2.4.4.11).
#[derive(Clone, Copy, PartialEq, Eq, Hash)]
pub struct TableKey {
    table_id: u8,
    extension: u16,
    current: bool,
}

impl TableKey {
    ghost use Rattle.std.specs.Prelude.{◌≡◌};
    ghost use Rattle.ts_demux.specs.Keys.{key_of_head, key_of_table};

    /// The key of a section with this head.
    pub fn of(head: &LongHead) -> TableKey
        ensures { result ≡ key_of_head head.now }
    {
        TableKey {
            table_id: head.table_id,
            extension: head.extension,
            current: head.current,
        }
    }

    /// The key of a table; none for a short section and for an EIT section, each of which is a table by itself.
    pub fn of_table(table: &TableRun) -> Option<TableKey>
        ensures { result ≡ key_of_table table.now }
    {
        let head = head_of_many(table.sections().first()?)?;
        Some(TableKey::of(&head))
    }
}

/// The head of a section that is no table by itself.
pub(crate) fn head_of_many(section: &Section) -> Option<LongHead>
    ensures alone { IfNone result (stands_alone section.now ≡ true) }
    ensures together { IfSome result (λ head. stands_alone section.now ≡ false) }
    ensures head { IfSome result (λ head. head ≡ head_fields section.now) }
{
    section
        .head()
        .filter(|head| head.table_id < 0x4E || 0x6F < head.table_id)
}
