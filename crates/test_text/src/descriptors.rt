//! Descriptors as JSON texts and back; each call that allocates is made once with enough memory.

use crate::compared::{got, same_bytes, same_text};
use crate::faults::tells;
use serde_json::Value;
use std::process::Abort;
use ts_bits::Descriptor;
use ts_json_descr::{descr_json, json_descr};
use ts_jtree::{JsonFault, JsonKind, ReadRefusal};

/// A tag, a body of at most 255 bytes, and their text.
type ShownRow = (u8, &'static [u8], &'static str);

/// Descriptors and their texts. All are read again.
static SHOWN: [ShownRow; 10] = [
    // 346 MHz, 64-QAM, 6.875 Mbaud
    (
        0x44,
        &[
            0x03, 0x46, 0x00, 0x00, 0xFF, 0xF2, 0x03, 0x00, 0x68, 0x75, 0x0F,
        ],
        r##"{"#name":"cable_delivery_system_descriptor","FEC_inner":15,"FEC_outer":2,"frequency":3460000,"modulation":3,"symbol_rate":68750}"##,
    ),
    // the same with a digit ten, which is not a decimal digit
    (
        0x44,
        &[
            0x0A, 0x46, 0x00, 0x00, 0xFF, 0xF2, 0x03, 0x00, 0x68, 0x75, 0x0F,
        ],
        r##"{"#name":"generic_descriptor","data":"0a460000fff2030068750f","tag":68}"##,
    ),
    // the language `fra`, of no audio type
    (
        0x0A,
        &[0x66, 0x72, 0x61, 0x00],
        r##"{"#name":"ISO_639_language_descriptor","#nodes":[{"#name":"language","audio_type":0,"code":"fra"}]}"##,
    ),
    // a CA system, with and without its reserved bits as ones
    (
        0x09,
        &[0x18, 0x00, 0xE1, 0x00],
        r##"{"#name":"CA_descriptor","CA_PID":256,"CA_system_id":6144,"private_data":""}"##,
    ),
    (
        0x09,
        &[0x18, 0x00, 0x01, 0x00],
        r##"{"#name":"CA_descriptor","CA_PID":256,"CA_system_id":6144,"private_data":"","reserved":0}"##,
    ),
    // a part of a long text, whose items have a length before them, and the same with a length that cuts an item
    (
        0x4E,
        &[
            0x00, b'e', b'n', b'g', 0x04, 0x01, b'a', 0x01, b'b', 0x01, b'c',
        ],
        r##"{"#name":"extended_event_descriptor","#nodes":[{"#name":"item","item":"b","item_description":"a"}],"descriptor_number":0,"language_code":"eng","last_descriptor_number":0,"text":"c"}"##,
    ),
    (
        0x4E,
        &[
            0x00, b'e', b'n', b'g', 0x03, 0x01, b'a', 0x01, b'b', 0x01, b'c',
        ],
        r##"{"#name":"generic_descriptor","data":"00656e6703016101620163","tag":78}"##,
    ),
    // an extension descriptor with a language, with a flag for one that is not there, and one of an extension without a page
    (
        0x7F,
        &[0x06, 0x07, b'e', b'n', b'g'],
        r##"{"#name":"supplementary_audio_descriptor","editorial_classification":1,"language_code":"eng","language_code_present":true,"mix_type":0,"private_data":""}"##,
    ),
    (
        0x7F,
        &[0x06, 0x07, b'e', b'n'],
        r##"{"#name":"generic_descriptor","data":"0607656e","tag":127}"##,
    ),
    (
        0x7F,
        &[0x52, 0x07],
        r##"{"#name":"generic_descriptor","data":"5207","tag":127}"##,
    ),
];

/// The rows. The content of a `static` is written into each function that names it.
fn shown_rows() -> &'static [ShownRow; 10] {
    &SHOWN
}

/// The JSON value of a descriptor.
fn shown(rt: &(impl Abort + AllocGlobal), tag: u8, body: &[u8]) -> Value {
    let body = &body[..body.len().min(255)];
    let descriptor = got(rt, Descriptor::new(rt.alloc(), tag, body));
    got(rt, descr_json(rt.alloc(), &descriptor))
}

/// The JSON value of a text.
fn value_of(rt: &(impl Abort + AllocGlobal), text: &str) -> Value {
    got(rt, Value::from_str(rt.alloc(), text))
}

/// Checks the JSON text of a descriptor.
fn is_shown(rt: &(impl Abort + AllocGlobal), row: &ShownRow) {
    let value = shown(rt, row.0, row.1);
    let text = got(rt, value.to_string(rt.alloc()));
    same_text(rt, text.as_str(), row.2);
}

/// Checks the body of the descriptor of a JSON text.
fn is_read(rt: &(impl Abort + AllocGlobal), row: &ShownRow) {
    let back = got(rt, json_descr(rt.alloc(), &value_of(rt, row.2)));
    same_bytes(rt, back.body(), row.1);
}

#[test]
fn descriptors_are_shown(rt: HostRuntime) {
    for row in shown_rows() {
        is_shown(&rt, row);
    }
}

#[test]
fn shown_descriptors_are_read(rt: HostRuntime) {
    for row in shown_rows() {
        is_read(&rt, row);
    }
}

/// A CA_identifier_descriptor whose second system has no value.
const NO_SYSTEM: &str =
    r##"{"#name":"CA_identifier_descriptor","#nodes":[{"#name":"CA_system_id","value":1},{"#name":"CA_system_id"}]}"##;

/// The fault of a text that is not a descriptor.
fn fault(rt: &(impl Abort + AllocGlobal), text: &str) -> JsonFault {
    match json_descr(rt.alloc(), &value_of(rt, text)) {
        Err(ReadRefusal::Json(fault)) => fault,
        _ => rt.panic("no fault"),
    }
}

#[test]
fn a_fault_of_a_child_has_its_number(rt: HostRuntime) {
    let fault = fault(&rt, NO_SYSTEM);
    tells(&rt, &fault, &[1], "value", JsonKind::Missing);
}
