//! Days, times and starts of events: the numbers in tables as texts, and the texts as numbers.
//! The layer above uses `start_of` and `start_text`, which follow the calendar (`specs/Calendar.antt`).
#![tactic(auto)]

mod calendar;
mod days;
mod digits;
mod texts_laws;
mod times;

pub use days::{DayText, day_of, day_text};
pub use texts_laws::texts_tell_numbers;
pub use times::{TimeText, start_of, start_text, time_of, time_text};
