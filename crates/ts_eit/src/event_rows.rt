//! The fields of an event of an EIT (ETSI EN 300 468, 5.2.4).

ghost use Rattle.std.specs.Prelude.{◌≡◌, ◌<◌, [], ◌∷◌, map, true};
ghost use Rattle.ts_fields.specs.Fitting.{fits};
ghost use Rattle.ts_fields.specs.Layout.{held, number};
ghost use Rattle.ts_table_rows.specs.RowWords.{flag};
ghost use Rattle.ts_table_pages.specs.EitPages.{event_page};
ghost use Rattle.ts_eit.specs.EventTimes.{start_bits, time_bits};

use crate::start::Start;
use crate::times::{start_value, time_value};
use ts_fields::FieldValue;

/// The event_id, start_time, duration, running_status and free_CA_mode of an event.
#[tactic(auto, using(ts_table_rows::proofs::ListLemmas::flag_read), unfolding(ts_fields::specs::Fitting::fits))]
pub fn event_fields(values: &[FieldValue]) -> (u16, Option<Start>, u32, u8, bool)
    requires { fits event_page.rows (map held values.now) ≡ true }
    ensures values { map held values.now
        ≡ number result.0 ∷ number (start_bits result.1) ∷ number (time_bits result.2) ∷ number result.3
        ∷ flag result.4 ∷ [] }
    ensures duration { result.2 < 360000 }
    ensures running { result.3 < 8 }
{
    let [
        FieldValue::Number(event_id),
        FieldValue::Number(start),
        FieldValue::Number(duration),
        FieldValue::Number(running),
        FieldValue::Number(free_ca),
    ] = values
    else {
        return (0, None, 0, 0, false);
    };
    (
        *event_id as u16,
        start_value(*start),
        time_value(*duration),
        *running as u8,
        *free_ca == 1,
    )
}
