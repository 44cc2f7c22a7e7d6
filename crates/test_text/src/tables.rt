//! Tables as JSON texts and sections; each call that allocates is made once with enough memory.

ghost use Rattle.ts_json_tables.specs.HeldTables.{table_value};
ghost use Rattle.ts_json_tables.specs.ValidTables.{IsTable};

use crate::compared::{got, same, same_text};
use serde_json::Value;
use std::process::Abort;
use ts_json_tables::{Table, of_json, table_of, table_sections, to_json};
use ts_jtree::{JsonKind, ReadRefusal};
use ts_section::TableRun;

/// The JSON value of a text.
fn value_of(rt: &(impl Abort + AllocGlobal), text: &str) -> Value {
    got(rt, Value::from_str(rt.alloc(), text))
}

/// The table of a text.
fn read(rt: &(impl Abort + AllocGlobal), text: &str) -> Table
    ensures { IsTable (table_value result) }
{
    let value = value_of(rt, text);
    got(rt, of_json(rt.alloc(), &value))
}

/// The sections of a text.
fn written(rt: &(impl Abort + AllocGlobal), text: &str) -> TableRun {
    let table = read(rt, text);
    let sections = got(rt, table_sections(rt.alloc(), &table));
    got(rt, TableRun::of(sections))
}

/// The JSON value that a table is shown as after it is read, written as sections and read again.
fn again(rt: &(impl Abort + AllocGlobal), text: &str) -> Value {
    let run = written(rt, text);
    let back = got(rt, table_of(rt.alloc(), &run));
    got(rt, to_json(rt.alloc(), &back))
}

/// Texts, and their canonical forms.
static TEXTS: [(&str, &str); 11] = [
    (
        r##"{"#name":"PAT","transport_stream_id":1,"#nodes":[{"#name":"service","service_id":1,"program_map_PID":"0x1000"}]}"##,
        r##"{"#name":"PAT","#nodes":[{"#name":"service","program_map_PID":4096,"service_id":1}],"current":true,"transport_stream_id":1,"version":0}"##,
    ),
    (
        r##"{"#name":"PAT","transport_stream_id":1,"network_PID":16,"version":3,"current":"false"}"##,
        r##"{"#name":"PAT","#nodes":[],"current":false,"network_PID":16,"transport_stream_id":1,"version":3}"##,
    ),
    (
        r##"{"#name":"CAT","#nodes":[{"#name":"CA_descriptor","CA_PID":256,"CA_system_id":6144}]}"##,
        r##"{"#name":"CAT","#nodes":[{"#name":"CA_descriptor","CA_PID":256,"CA_system_id":6144,"private_data":""}],"current":true,"version":0}"##,
    ),
    (
        r##"{"#name":"PMT","service_id":1,"#nodes":[{"#name":"component","elementary_PID":257,"stream_type":3,"#nodes":[{"#name":"stream_identifier_descriptor","component_tag":7}]},{"#name":"generic_descriptor","tag":88,"data":"DEAD"}]}"##,
        r##"{"#name":"PMT","#nodes":[{"#name":"generic_descriptor","data":"dead","tag":88},{"#name":"component","#nodes":[{"#name":"stream_identifier_descriptor","component_tag":7}],"elementary_PID":257,"stream_type":3}],"PCR_PID":8191,"current":true,"service_id":1,"version":0}"##,
    ),
    (
        r##"{"#name":"SDT","actual":"false","transport_stream_id":1105,"original_network_id":8442,"#nodes":[{"#name":"service","service_id":769,"running_status":4}]}"##,
        r##"{"#name":"SDT","#nodes":[{"#name":"service","#nodes":[],"CA_mode":false,"EIT_present_following":false,"EIT_schedule":false,"running_status":4,"service_id":769}],"actual":false,"current":true,"original_network_id":8442,"transport_stream_id":1105,"version":0}"##,
    ),
    (
        r##"{"#name":"EIT","table_id":"0x50","service_id":769,"transport_stream_id":1,"original_network_id":8442,"section_number":1,"last_section_number":2,"last_table_id":80,"#nodes":[{"#name":"event","event_id":7,"start_time":"1993-10-13 12:45:00","duration":"01:45:30"}]}"##,
        r##"{"#name":"EIT","#nodes":[{"#name":"event","#nodes":[],"CA_mode":false,"duration":"01:45:30","event_id":7,"running_status":0,"start_time":"1993-10-13 12:45:00"}],"current":true,"last_section_number":2,"last_table_id":80,"original_network_id":8442,"section_number":1,"segment_last_section_number":0,"service_id":769,"table_id":80,"transport_stream_id":1,"version":0}"##,
    ),
    (
        r##"{"#name":"generic_short_table","table_id":114,"private":true,"payload":"AA"}"##,
        r##"{"#name":"generic_short_table","payload":"aa","private":true,"table_id":114}"##,
    ),
    (
        r##"{"#name":"generic_short_table","table_id":112,"payload":"D65B233130"}"##,
        r##"{"#name":"TDT","UTC_time":"2009-02-13 23:31:30"}"##,
    ),
    (
        r##"{"#name":"RST","#nodes":[{"#name":"event","transport_stream_id":1,"original_network_id":8442,"service_id":769,"event_id":7,"running_status":4}]}"##,
        r##"{"#name":"RST","#nodes":[{"#name":"event","event_id":7,"original_network_id":8442,"running_status":4,"service_id":769,"transport_stream_id":1}]}"##,
    ),
    (
        r##"{"#name":"TOT","UTC_time":"undefined","reserved":0,"#nodes":[{"#name":"generic_descriptor","tag":200,"data":"DEAD"}]}"##,
        r##"{"#name":"TOT","#nodes":[{"#name":"generic_descriptor","data":"dead","tag":200}],"UTC_time":"undefined","reserved":0}"##,
    ),
    (
        r##"{"#name":"generic_long_table","table_id":"0x4E","table_id_extension":1,"section_number":2,"last_section_number":3,"#nodes":[{"#name":"section","payload":"00"}]}"##,
        r##"{"#name":"generic_long_table","#nodes":[{"#name":"section","payload":"00"}],"current":true,"last_section_number":3,"private":true,"section_number":2,"table_id":78,"table_id_extension":1,"version":0}"##,
    ),
];

/// The texts. The content of a `static` is written into each function that names it.
fn texts() -> &'static [(&'static str, &'static str)] {
    &TEXTS
}

/// Checks the canonical form of a text.
fn comes_back(rt: &(impl Abort + AllocGlobal), text: &str, canonical: &str) {
    let back = got(rt, again(rt, text).to_string(rt.alloc()));
    same_text(rt, back.as_str(), canonical);
}

#[test]
fn tables_come_back(rt: HostRuntime) {
    for (text, canonical) in texts() {
        comes_back(&rt, text, canonical);
    }
}

/// The number of the child that a fault is in, if it is in one, the key and the kind.
type Told<'a> = (Option<usize>, &'a str, JsonKind);

/// Texts, and their first faults.
static FAULTS: [(&str, Told<'static>); 13] = [
    (
        r##"{"#name":"PAD"}"##,
        (None, "#name", JsonKind::UnknownKey),
    ),
    (
        r##"{"#name":"TDT","#nodes":[{"#name":"event"}]}"##,
        (None, "UTC_time", JsonKind::Missing),
    ),
    (
        r##"{"#name":"TOT","UTC_time":"2009-02-13 23:31:30","version":1}"##,
        (None, "version", JsonKind::UnknownKey),
    ),
    (
        r##"{"#name":"TOT","UTC_time":"2009-02-13 23:31:30","#nodes":[{"#name":"CA_descriptor","CA_PID":1,"CA_system_id":1},{"#name":"event"}]}"##,
        (Some(1), "#name", JsonKind::UnknownKey),
    ),
    (
        r##"{"#name":"RST","#nodes":[{"#name":"event","transport_stream_id":1,"original_network_id":1,"service_id":1,"event_id":1,"running_status":8}]}"##,
        (Some(0), "running_status", JsonKind::OutOfRange),
    ),
    (
        r##"{"#name":"PAT","transport_stream_id":1,"#nodes":[{"#name":"service","service_id":0,"program_map_PID":1}]}"##,
        (Some(0), "service_id", JsonKind::OutOfRange),
    ),
    (
        r##"{"#name":"PAT","transport_stream_id":1,"network_PID":8192}"##,
        (None, "network_PID", JsonKind::OutOfRange),
    ),
    (
        r##"{"#name":"CAT","network_PID":8191}"##,
        (None, "network_PID", JsonKind::UnknownKey),
    ),
    (
        r##"{"#name":"PMT","service_id":1,"#nodes":[{"#name":"CA_descriptor","CA_PID":1,"CA_system_id":1},{"#name":"service"}]}"##,
        (Some(1), "#name", JsonKind::UnknownKey),
    ),
    (
        r##"{"#name":"generic_long_table","table_id":77,"section_number":0,"table_id_extension":1}"##,
        (None, "section_number", JsonKind::UnknownKey),
    ),
    (
        r##"{"#name":"generic_long_table","table_id":"111","section_number":1,"table_id_extension":1}"##,
        (None, "last_section_number", JsonKind::OutOfRange),
    ),
    (
        r##"{"#name":"generic_long_table","table_id":77,"table_id_extension":1}"##,
        (None, "#nodes", JsonKind::OutOfRange),
    ),
    (
        r##"{"#name":"generic_short_table","table_id":255,"private":1}"##,
        (None, "table_id", JsonKind::OutOfRange),
    ),
];

/// The texts with faults.
fn faults() -> &'static [(&'static str, Told<'static>)] {
    &FAULTS
}

/// Checks the first fault of a text.
fn is_faulty(rt: &(impl Abort + AllocGlobal), text: &str, wanted: Told) {
    let value = value_of(rt, text);
    match of_json(rt.alloc(), &value) {
        Err(ReadRefusal::Json(fault)) => {
            let first = fault.path.as_slice().first().copied();
            same(rt, (first, fault.key.as_str(), fault.kind), wanted);
        }
        _ => rt.panic("no fault"),
    }
}

#[test]
fn the_first_fault_is_told(rt: HostRuntime) {
    for (text, told) in faults() {
        is_faulty(&rt, text, *told);
    }
}
