//! Tests of days and start times with values from other sources, each call once.

use crate::compared::{got, same};
use std::process::Abort;
use ts_days::{day_of, day_text, start_of, start_text, time_of, time_text};

/// Days with their numbers (MJD): the first and the last, the first of Unix time, and the example of ETSI EN 300 468,
/// annex C.
static DAYS: [(&str, u16); 4] = [
    ("1858-11-17", 0),
    ("1970-01-01", 40_587),
    ("1982-09-06", 45_218),
    ("2038-04-22", 65_535),
];

/// Texts that are not a day.
static NO_DAYS: [&str; 6] = [
    "1993-02-29",
    "1993-13-01",
    "1993-00-01",
    "1858-11-16",
    "93-10-13",
    "1993/10/13",
];

/// Checks that a text and a number are those of the same day.
fn are_of_a_day(rt: &impl Abort, text: &str, number: u16) {
    same(rt, day_of(text), Some(number));
    is_text(rt, day_text(number).as_str(), text);
}

/// Checks that a text is the expected one.
fn is_text(rt: &impl Abort, found: &str, wanted: &str) {
    assert_eq!(rt; found, wanted);
}

/// The days. The content of a `static` is written into each function that names it.
fn days() -> &'static [(&'static str, u16)] {
    &DAYS
}

/// The texts that are not a day.
fn no_days() -> &'static [&'static str] {
    &NO_DAYS
}

#[test]
fn days_are_told(rt: HostRuntime) {
    for (text, number) in days() {
        are_of_a_day(&rt, text, *number);
    }
    for text in no_days() {
        same(&rt, day_of(text), None);
    }
}

/// Checks the texts of a duration and of a start time.
fn are_texts(rt: &(impl Abort + AllocGlobal)) {
    is_text(rt, time_text(0x01_4530).as_str(), "01:45:30");
    let text = got(rt, start_text(rt.alloc(), 0xC0_7912_4500));
    is_text(rt, text.as_str(), "1993-10-13 12:45:00");
}

/// Start times, and their numbers.
static STARTS: [(&str, Option<u64>); 3] = [
    ("1993-10-13 12:45:00", Some(0xC0_7912_4500)),
    ("undefined", Some(0xFF_FFFF_FFFF)),
    ("1993-10-13 24:00:00", None),
];

/// The start times.
fn starts() -> &'static [(&'static str, Option<u64>)] {
    &STARTS
}

#[test]
fn starts_are_told(rt: HostRuntime) {
    for (text, wanted) in starts() {
        same(&rt, start_of(text), *wanted);
    }
    same(&rt, time_of(99, "99:59:59"), Some(0x99_5959));
    same(&rt, time_of(99, "01:60:00"), None);
    are_texts(&rt);
}
