//! The section numbers of an EIT, and its fields outside the events.

ghost use Rattle.std.specs.Prelude.{◌≡◌, ◌≤◌, ◌<◌, [], ◌∷◌, map, true, Some};
ghost use Rattle.ts_fields.specs.Layout.{held, number};
ghost use Rattle.ts_table_rows.specs.TableFitting.{numbers_fit, values_fit};
ghost use Rattle.ts_table_pages.specs.EitPages.{eit_page};

use ts_fields::FieldValue;
use ts_table_rows::TableHead;

/// The values that a table keeps of the head of its one section, with its section numbers.
pub fn table_head(
    table_id: u8,
    extension: u16,
    version: u8,
    current: bool,
    numbers: (u8, u8),
) -> TableHead
    ensures head { result ≡ record {
      table_id = table_id;
      extension = extension;
      version = version;
      current = current;
      numbers = Some numbers;
    } }
    ensures in_range { extension < 65536 }
    ensures last { numbers.1 < 256 }
{
    TableHead {
        table_id,
        extension,
        version,
        current,
        numbers: Some(numbers),
    }
}

/// The section_number and the last_section_number that a table keeps.
pub fn numbers_of(numbers: Option<(u8, u8)>) -> (u8, u8)
    requires { numbers_fit true numbers ≡ true }
    ensures kept { numbers ≡ Some result }
    ensures in_order { result.0 ≤ result.1 }
{
    match numbers {
        Some(kept) => kept,
        None => (0, 0),
    }
}

/// The transport_stream_id, original_network_id, segment_last_section_number and last_table_id.
#[tactic(auto, unfolding(ts_fields::specs::Fitting::fits))]
pub fn fields_of(values: &[FieldValue]) -> (u16, u16, u8, u8)
    requires { values_fit eit_page (map held values.now) ≡ true }
    ensures { map held values.now
        ≡ number result.0 ∷ number result.1 ∷ number result.2 ∷ number result.3 ∷ [] }
{
    let [
        FieldValue::Number(stream_id),
        FieldValue::Number(original_id),
        FieldValue::Number(segment_last),
        FieldValue::Number(last_table_id),
    ] = values
    else {
        return (0, 0, 0, 0);
    };
    (
        *stream_id as u16,
        *original_id as u16,
        *segment_last as u8,
        *last_table_id as u8,
    )
}
