//! Elements read and shown; each call that allocates is made once with enough memory.

use crate::compared::{got, same, same_text};
use serde_json::{Map, Value};
use std::alloc::{AllocError, Global};
use std::process::Abort;
use ts_fields::{Field, FieldValue, Kind};
use ts_jtree::{JsonKind, ReadRefusal, put_text, read_element, show_attributes};

macro_rules! rows {
    ($($name:literal $kind:expr, $absent:expr;)*) => {
        &[$(Field { name: $name, kind: $kind, absent: $absent, range: None }),*]
    };
}

/// The fields of an event, and a text.
static EVENT: &[Field] = rows![
    "event_id" Kind::Number(16), None;
    "start_time" Kind::Start, None;
    "duration" Kind::Duration, None;
    "CA_mode" Kind::Flag, Some(0);
    "name" Kind::Text, None;
];

/// The numbers of values and children that are read from an element, or the key and the kind of its fault.
type Told<'a> = Result<(usize, usize), (&'a str, JsonKind)>;

/// Elements, and what is read from them.
static ELEMENTS: [(&str, Told<'static>); 12] = [
    (
        r##"{"#name":"event","event_id":"0x1F","start_time":"undefined","duration":"01:45:30"}"##,
        Ok((5, 0)),
    ),
    ("[]", Err(("#name", JsonKind::WrongKind))),
    ("{}", Err(("#name", JsonKind::Missing))),
    (
        r##"{"#name":"event","zeal":1,"ardour":2}"##,
        Err(("ardour", JsonKind::UnknownKey)),
    ),
    (
        r##"{"#name":"event","event_id":1.0,"duration":7}"##,
        Err(("event_id", JsonKind::WrongKind)),
    ),
    (
        r##"{"#name":"event","event_id":"99999999999999999999","duration":7}"##,
        Err(("event_id", JsonKind::OutOfRange)),
    ),
    (
        r##"{"#name":"event","event_id":1,"duration":7}"##,
        Err(("start_time", JsonKind::Missing)),
    ),
    (
        r##"{"#name":"event","event_id":1,"name":"a","name_hex":"61"}"##,
        Err(("name_hex", JsonKind::UnknownKey)),
    ),
    (
        r##"{"#name":"event","event_id":1,"start_time":"undefined","duration":"01:45:30","name":"ü","name_table":"ISO-8859-9"}"##,
        Ok((5, 0)),
    ),
    (
        r##"{"#name":"event","event_id":1,"name_table":"ISO-8859-9"}"##,
        Err(("name_table", JsonKind::UnknownKey)),
    ),
    (
        r##"{"#name":"event","event_id":1,"start_time":"undefined","duration":"01:45:30","name":"ю","name_table":"Latin-1"}"##,
        Err(("name_table", JsonKind::WrongKind)),
    ),
    (
        r##"{"#name":"event","event_id":1,"start_time":"undefined","duration":"01:45:30","name":"ю","name_table":"ISO-8859-9"}"##,
        Err(("name", JsonKind::OutOfRange)),
    ),
];

/// The elements. The content of a `static` is written into each function that names it.
fn elements() -> &'static [(&'static str, Told<'static>)] {
    &ELEMENTS
}

/// Checks what is read from an element.
fn is_read(rt: &(impl Abort + AllocGlobal), text: &str, wanted: Told) {
    let value = got(rt, Value::from_str(rt.alloc(), text));
    match read_element(rt.alloc(), "event", EVENT, &value) {
        Ok((values, nodes)) => same(rt, Ok((values.len(), nodes.len())), wanted),
        Err(ReadRefusal::Json(fault)) => {
            same(rt, Err((fault.key.as_str(), fault.kind)), wanted);
        }
        Err(ReadRefusal::NoMemory) => rt.panic("no memory"),
    }
}

#[test]
fn the_first_fault_is_told(rt: HostRuntime) {
    for (text, told) in elements() {
        is_read(&rt, text, *told);
    }
}

/// An event as text.
#[tactic(auto, unfolding(ts_jtree::specs::Shown::are_shown))]
fn event_text(alloc: Global, values: &[FieldValue]) -> Result<String, AllocError> {
    let mut members = Map::new(alloc);
    put_text(alloc, &mut members, "#name", "event")?;
    show_attributes(alloc, &mut members, EVENT, values)?;
    Value::Object(members).to_string(alloc)
}

/// The values of an event.
fn event_values(rt: &(impl Abort + AllocGlobal)) -> Vec<FieldValue> {
    let name = got(rt, Vec::from_slice(rt.alloc(), b"\x05News"));
    let values = vec![in rt.alloc();
        FieldValue::Number(31),
        FieldValue::Number(0xC0_7912_4500),
        FieldValue::Number(0x01_4530),
        FieldValue::Number(0),
        FieldValue::Bytes(name),
    ];
    got(rt, values)
}

#[test]
fn an_event_is_shown(rt: HostRuntime) {
    let values = event_values(&rt);
    let text = got(&rt, event_text(rt.alloc(), &values));
    same_text(
        &rt,
        text.as_str(),
        r##"{"#name":"event","CA_mode":false,"duration":"01:45:30","event_id":31,"name":"News","name_table":"ISO-8859-9","start_time":"1993-10-13 12:45:00"}"##,
    );
}
