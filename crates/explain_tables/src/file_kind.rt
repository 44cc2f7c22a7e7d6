//! What a file seems to be that was given as one of tables.

/// What a file seems to be, by the bytes with which it begins.
#[derive(Clone, Copy)]
enum FileKind {
    Json,
    Xml,
    Stream,
}

/// The byte that begins a packet.
const SYNC: u8 = 0x47;

const PACKET_SIZE: usize = 188;

// The kind of the bytes, where they begin as one of them does. A stream has its second packet, or ends with its first.
fn kind_of(bytes: &[u8]) -> Option<FileKind> {
    if bytes.first() == Some(&SYNC) {
        let is_stream = match bytes.get(PACKET_SIZE) {
            Some(next) => *next == SYNC,
            None => bytes.len() == PACKET_SIZE,
        };
        return is_stream.then_some(FileKind::Stream);
    }
    // A mark of the order of bytes and blanks may come before a text.
    for byte in bytes
        .strip_prefix(b"\xEF\xBB\xBF".as_slice())
        .unwrap_or(bytes)
    {
        match *byte {
            b' ' | b'\t' | b'\r' | b'\n' => {}
            b'{' => return Some(FileKind::Json),
            b'<' => return Some(FileKind::Xml),
            _ => return None,
        }
    }
    None
}

/// A line on what a file seems to be, where it is no text of tables in JSON; nothing where it has none of these forms.
pub(crate) fn other_than_json(file: &[u8]) -> &'static str {
    match kind_of(file) {
        Some(FileKind::Xml) =>
            "it begins as an XML text does; texts of tables are JSON, as docs/json.md has it\n",
        Some(FileKind::Stream) =>
            "it begins as a transport stream does; -P tables of tsp shows the tables of one\n",
        Some(FileKind::Json) | None => "",
    }
}

/// A line on what a file seems to be, where it is none of sections; for a text in JSON it is given.
pub(crate) fn other_than_sections<'a>(file: &[u8], json: &'a str) -> &'a str {
    match kind_of(file) {
        Some(FileKind::Json) => json,
        _ => other_than_json(file),
    }
}
