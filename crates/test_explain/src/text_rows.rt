//! Texts that are not JSON.

/// A file that is not JSON, and what it is.
pub(crate) struct TextRow {
    pub(crate) about: &'static str,
    pub(crate) file: &'static [u8],
}

/// The rows.
pub(crate) fn text_rows() -> &'static [TextRow] {
    static ROWS: [TextRow; 5] = [
        TextRow {
            about: "a key without quotation marks",
            file: b"{\n a: 1}\n",
        },
        TextRow {
            about: "a text in Latin-1",
            file: b"{\"\xE4\":1}",
        },
        TextRow {
            about: "XML",
            file: b"<?xml version=\"1.0\"?>",
        },
        TextRow {
            about: "XML after a blank",
            file: b"\n<tsduck>",
        },
        TextRow {
            about: "a packet",
            file: &[0x47; 188],
        },
    ];
    &ROWS
}
