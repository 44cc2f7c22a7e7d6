//! Faults of JSON values.
use ts_jtree::JsonKind;

/// A fault of a JSON value, and what it is about.
pub(crate) struct JsonRow {
    pub(crate) about: &'static str,
    pub(crate) path: &'static [usize],
    pub(crate) key: &'static str,
    pub(crate) kind: JsonKind,
    /// The text of tables, where it is given.
    pub(crate) text: &'static str,
}

// Keys at several places.
fn place_rows() -> &'static [JsonRow] {
    static ROWS: [JsonRow; 3] = [
        JsonRow {
            about: "a key of the child 0 of the child 2",
            path: &[2, 0],
            key: "service_id",
            kind: JsonKind::OutOfRange,
            text: "",
        },
        JsonRow {
            about: "a key that is not there",
            path: &[10],
            key: "transport_stream_id",
            kind: JsonKind::Missing,
            text: "",
        },
        JsonRow {
            about: "a key of the root",
            path: &[],
            key: "version",
            kind: JsonKind::UnknownKey,
            text: "",
        },
    ];
    &ROWS
}

// Keys of which not each character is shown as it is.
fn shown_key_rows() -> &'static [JsonRow] {
    static ROWS: [JsonRow; 3] = [
        JsonRow {
            about: "a slash, a tilde, and a slash that seems escaped",
            path: &[1, 2, 3],
            key: "a/b~c~1",
            kind: JsonKind::UnknownKey,
            text: "",
        },
        JsonRow {
            about: "control characters, and a character of two bytes",
            path: &[0],
            key: "a\u{1b}[31m\u{7f}\u{e4}",
            kind: JsonKind::WrongKind,
            text: "",
        },
        JsonRow {
            about: "an empty key",
            path: &[0],
            key: "",
            kind: JsonKind::UnknownKey,
            text: "",
        },
    ];
    &ROWS
}

// Names that are not known.
fn name_rows() -> &'static [JsonRow] {
    static ROWS: [JsonRow; 2] = [
        JsonRow {
            about: "a name that may not be there",
            path: &[0, 1],
            key: "#name",
            kind: JsonKind::UnknownKey,
            text: "",
        },
        JsonRow {
            about: "another name of the root",
            path: &[],
            key: "#name",
            kind: JsonKind::UnknownKey,
            text: "",
        },
    ];
    &ROWS
}

// Elements that are wrong as a whole.
fn element_rows() -> &'static [JsonRow] {
    static ROWS: [JsonRow; 3] = [
        JsonRow {
            about: "an element that is a number",
            path: &[0, 1],
            key: "#name",
            kind: JsonKind::WrongKind,
            text: "",
        },
        JsonRow {
            about: "a descriptor of 256 bytes",
            path: &[0, 1, 0],
            key: "#name",
            kind: JsonKind::OutOfRange,
            text: "",
        },
        JsonRow {
            about: "children that are no array",
            path: &[0],
            key: "#nodes",
            kind: JsonKind::WrongKind,
            text: "",
        },
    ];
    &ROWS
}

// Unknown keys of tables and of their items.
fn table_key_rows() -> &'static [JsonRow] {
    static ROWS: [JsonRow; 4] = [
        JsonRow {
            about: "an unknown key of a PAT",
            path: &[0],
            key: "tsid",
            kind: JsonKind::UnknownKey,
            text: "{\"#name\":\"tsduck\",\"#nodes\":[{\"#name\":\"PAT\",\"tsid\":1}]}",
        },
        JsonRow {
            about: "an unknown key of an EIT",
            path: &[0],
            key: "tsid",
            kind: JsonKind::UnknownKey,
            text: "{\"#name\":\"tsduck\",\"#nodes\":[{\"#name\":\"EIT\",\"tsid\":1}]}",
        },
        JsonRow {
            about: "an unknown key of an SDT",
            path: &[0],
            key: "tsid",
            kind: JsonKind::UnknownKey,
            text: "{\"#name\":\"tsduck\",\"#nodes\":[{\"#name\":\"SDT\",\"tsid\":1}]}",
        },
        JsonRow {
            about: "an unknown key of a service of an SDT",
            path: &[0, 0],
            key: "id",
            kind: JsonKind::UnknownKey,
            text: "{\"#name\":\"tsduck\",\"#nodes\":[{\"#name\":\"SDT\",\"#nodes\":[{\"#name\":\"service\",\"id\":1}]}]}",
        },
    ];
    &ROWS
}

// Unknown keys of descriptors, and where none are listed.
fn descriptor_key_rows() -> &'static [JsonRow] {
    static ROWS: [JsonRow; 5] = [
        JsonRow {
            about: "an unknown key of a descriptor",
            path: &[0, 0],
            key: "name",
            kind: JsonKind::UnknownKey,
            text: "{\"#name\":\"tsduck\",\"#nodes\":[{\"#name\":\"NIT\",\"#nodes\":[{\"#name\":\"service_descriptor\",\"name\":\"x\"}]}]}",
        },
        JsonRow {
            about: "an unknown key of an item of a descriptor",
            path: &[0, 0, 0],
            key: "id",
            kind: JsonKind::UnknownKey,
            text: "{\"#name\":\"tsduck\",\"#nodes\":[{\"#name\":\"NIT\",\"#nodes\":[{\"#name\":\"service_list_descriptor\",\"#nodes\":[{\"#name\":\"service\",\"id\":1}]}]}]}",
        },
        JsonRow {
            about: "an unknown key of a table given by its bytes",
            path: &[0],
            key: "id",
            kind: JsonKind::UnknownKey,
            text: "{\"#name\":\"tsduck\",\"#nodes\":[{\"#name\":\"generic_short_table\",\"id\":1}]}",
        },
        JsonRow {
            about: "an unknown key of a TOT",
            path: &[0],
            key: "version",
            kind: JsonKind::UnknownKey,
            text: "{\"#name\":\"tsduck\",\"#nodes\":[{\"#name\":\"TOT\",\"UTC_time\":\"undefined\",\"version\":1}]}",
        },
        JsonRow {
            about: "an unknown key of an event of an RST",
            path: &[0, 0],
            key: "duration",
            kind: JsonKind::UnknownKey,
            text: "{\"#name\":\"tsduck\",\"#nodes\":[{\"#name\":\"RST\",\"#nodes\":[{\"#name\":\"event\",\"duration\":\"01:00:00\"}]}]}",
        },
    ];
    &ROWS
}

// Unknown tables, and elements in a table that has no descriptors.
fn table_name_rows() -> &'static [JsonRow] {
    static ROWS: [JsonRow; 3] = [
        JsonRow {
            about: "an unknown table",
            path: &[1],
            key: "#name",
            kind: JsonKind::UnknownKey,
            text: "{\"#name\":\"tsduck\",\"#nodes\":[{\"#name\":\"PAT\"},{\"#name\":\"SIT\"}]}",
        },
        JsonRow {
            about: "an unknown element of a PAT",
            path: &[0, 0],
            key: "#name",
            kind: JsonKind::UnknownKey,
            text: "{\"#name\":\"tsduck\",\"#nodes\":[{\"#name\":\"PAT\",\"#nodes\":[{\"#name\":\"services\"}]}]}",
        },
        JsonRow {
            about: "an element in an item of a PAT",
            path: &[0, 0, 0],
            key: "#name",
            kind: JsonKind::UnknownKey,
            text: "{\"#name\":\"tsduck\",\"#nodes\":[{\"#name\":\"PAT\",\"#nodes\":[{\"#name\":\"service\",\"#nodes\":[{\"#name\":\"service\"}]}]}]}",
        },
    ];
    &ROWS
}

// Unknown elements where a descriptor is allowed.
fn descriptor_name_rows() -> &'static [JsonRow] {
    static ROWS: [JsonRow; 2] = [
        JsonRow {
            about: "an unknown element of a NIT",
            path: &[0, 0],
            key: "#name",
            kind: JsonKind::UnknownKey,
            text: "{\"#name\":\"tsduck\",\"#nodes\":[{\"#name\":\"NIT\",\"#nodes\":[{\"#name\":\"network\"}]}]}",
        },
        JsonRow {
            about: "an unknown descriptor of a service",
            path: &[0, 0, 0],
            key: "#name",
            kind: JsonKind::UnknownKey,
            text: "{\"#name\":\"tsduck\",\"#nodes\":[{\"#name\":\"SDT\",\"#nodes\":[{\"#name\":\"service\",\"#nodes\":[{\"#name\":\"name\"}]}]}]}",
        },
    ];
    &ROWS
}

// Values of another kind.
fn value_rows() -> &'static [JsonRow] {
    static ROWS: [JsonRow; 5] = [
        JsonRow {
            about: "a running_status in words",
            path: &[0, 0],
            key: "running_status",
            kind: JsonKind::WrongKind,
            text: "{\"#name\":\"tsduck\",\"#nodes\":[{\"#name\":\"SDT\",\"#nodes\":[{\"#name\":\"service\",\"running_status\":\"running\"}]}]}",
        },
        JsonRow {
            about: "a start_time with a T",
            path: &[0, 0],
            key: "start_time",
            kind: JsonKind::WrongKind,
            text: "{\"#name\":\"tsduck\",\"#nodes\":[{\"#name\":\"EIT\",\"#nodes\":[{\"#name\":\"event\",\"start_time\":\"2026-11-29T20:15:00Z\"}]}]}",
        },
        JsonRow {
            about: "a duration in seconds",
            path: &[0, 0],
            key: "duration",
            kind: JsonKind::WrongKind,
            text: "{\"#name\":\"tsduck\",\"#nodes\":[{\"#name\":\"EIT\",\"#nodes\":[{\"#name\":\"event\",\"duration\":3600}]}]}",
        },
        JsonRow {
            about: "a flag as a number",
            path: &[0, 0],
            key: "CA_mode",
            kind: JsonKind::WrongKind,
            text: "{\"#name\":\"tsduck\",\"#nodes\":[{\"#name\":\"EIT\",\"#nodes\":[{\"#name\":\"event\",\"CA_mode\":1}]}]}",
        },
        JsonRow {
            about: "a character table that is unknown",
            path: &[0, 0],
            key: "network_name_table",
            kind: JsonKind::WrongKind,
            text: "{\"#name\":\"tsduck\",\"#nodes\":[{\"#name\":\"NIT\",\"#nodes\":[{\"#name\":\"network_name_descriptor\",\"network_name\":\"a\",\"network_name_table\":\"Latin-1\"}]}]}",
        },
    ];
    &ROWS
}

/// The tables of rows, each about one topic.
pub(crate) fn json_tables() -> [&'static [JsonRow]; 9] {
    [
        place_rows(),
        shown_key_rows(),
        name_rows(),
        element_rows(),
        table_key_rows(),
        descriptor_key_rows(),
        table_name_rows(),
        descriptor_name_rows(),
        value_rows(),
    ]
}
