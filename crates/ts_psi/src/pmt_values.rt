//! The fields of a PMT and of its components.

ghost use Rattle.std.specs.Prelude.{◌≡◌, ◌<◌, [], ◌∷◌, map, true};
ghost use Rattle.ts_fields.specs.Fitting.{fits};
ghost use Rattle.ts_fields.specs.Layout.{held, number};
ghost use Rattle.ts_table_pages.specs.PsiPages.{component_page, pmt_head_rows};

use ts_fields::FieldValue;

/// The PCR_PID of the fields of the table.
#[tactic(auto, unfolding(ts_fields::specs::Fitting::fits))]
pub fn pcr_of(values: &[FieldValue]) -> u16
    requires { fits pmt_head_rows (map held values.now) ≡ true }
    ensures value { map held values.now ≡ number result ∷ [] }
    ensures in_range { result < 8192 }
{
    let [FieldValue::Number(pid)] = values else {
        return 0;
    };
    *pid as u16
}

/// The stream_type and the elementary_PID of a component.
#[tactic(auto, unfolding(ts_fields::specs::Fitting::fits))]
pub fn component_fields(values: &[FieldValue]) -> (u8, u16)
    requires { fits component_page.rows (map held values.now) ≡ true }
    ensures values { map held values.now ≡ number result.0 ∷ number result.1 ∷ [] }
    ensures in_range { result.1 < 8192 }
{
    let [FieldValue::Number(stream_type), FieldValue::Number(pid)] = values else {
        return (0, 0);
    };
    (*stream_type as u8, *pid as u16)
}
