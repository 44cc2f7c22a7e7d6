//! The law of the texts of days, times and starts.

ghost use Rattle.std.specs.Prelude.{◌≡◌, ◌<◌, ◌^◌, ℕ, true, Some};
ghost use Rattle.ts_fields.specs.Times.{is_time, is_start};
ghost use Rattle.ts_days.specs.DayTexts.{day_of, day_text};
ghost use Rattle.ts_days.specs.TimeTexts.{time_of, time_text, start_of, start_text};

/// The number of a day, a valid time and a valid start are each read again from their texts. A law; it runs nothing.
pub fn texts_tell_numbers()
    ensures day { (number : ℕ) → number < 2 ^ 16 → day_of (day_text number) ≡ Some number }
    ensures time { (hours number : ℕ) → is_time hours number ≡ true
        → time_of hours (time_text number) ≡ Some number }
    ensures start { (number : ℕ) → number < 2 ^ 40 → is_start number ≡ true
        → start_of (start_text number) ≡ Some number }
{}
