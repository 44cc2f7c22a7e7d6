//! Faults of sections.
use tabcomp_core::DecompileFault;
use ts_section::{SectionFault, SectionRule};

/// Why bytes were not decompiled, and what it is about.
pub(crate) struct SectionRow {
    pub(crate) about: &'static str,
    pub(crate) fault: DecompileFault,
    /// The first bytes of the file; none where it was not kept.
    pub(crate) file: &'static [u8],
}

// Sections that are damaged, or cut short.
fn damaged_rows() -> &'static [SectionRow] {
    static ROWS: [SectionRow; 2] = [
        SectionRow {
            about: "a CRC with zeros in front",
            fault: DecompileFault::Section {
                offset: 16,
                fault: SectionFault::BadCrc {
                    wanted: 0x2AB1_04B2,
                    found: 0x0000_00AF,
                },
            },
            file: b"",
        },
        SectionRow {
            about: "two bytes",
            fault: DecompileFault::Section {
                offset: 0,
                fault: SectionFault::Short {
                    wanted: 3,
                    found: 2,
                },
            },
            file: b"",
        },
    ];
    &ROWS
}

// Bytes that have not the form of a section.
fn form_rows() -> &'static [SectionRow] {
    static ROWS: [SectionRow; 3] = [
        SectionRow {
            about: "stuffing",
            fault: DecompileFault::Section {
                offset: 1_024,
                fault: SectionFault::Invalid {
                    rule: SectionRule::Stuffing,
                },
            },
            file: b"",
        },
        SectionRow {
            about: "bytes after a section",
            fault: DecompileFault::Section {
                offset: 1,
                fault: SectionFault::Invalid {
                    rule: SectionRule::Trailing,
                },
            },
            file: b"",
        },
        SectionRow {
            about: "a long form without room for a CRC",
            fault: DecompileFault::Section {
                offset: 2,
                fault: SectionFault::Invalid {
                    rule: SectionRule::ShortLong,
                },
            },
            file: b"",
        },
    ];
    &ROWS
}

// Numbers that do not fit.
fn number_rows() -> &'static [SectionRow] {
    static ROWS: [SectionRow; 3] = [
        SectionRow {
            about: "section 3 of 0 to 2",
            fault: DecompileFault::Section {
                offset: 3,
                fault: SectionFault::Invalid {
                    rule: SectionRule::Numbers,
                },
            },
            file: b"",
        },
        SectionRow {
            about: "a section_length that is too great",
            fault: DecompileFault::Section {
                offset: 4,
                fault: SectionFault::TooLong { length: 4_095 },
            },
            file: b"",
        },
        SectionRow {
            about: "a run that breaks off",
            fault: DecompileFault::Sequence { offset: 16_777_216 },
            file: b"",
        },
    ];
    &ROWS
}

// Files that seem to be texts.
fn text_rows() -> &'static [SectionRow] {
    static ROWS: [SectionRow; 2] = [
        SectionRow {
            about: "a text in JSON",
            fault: DecompileFault::Section {
                offset: 0,
                fault: SectionFault::Short {
                    wanted: 525,
                    found: 5,
                },
            },
            file: b"{\n\"7\"",
        },
        SectionRow {
            about: "a text in XML",
            fault: DecompileFault::Section {
                offset: 0,
                fault: SectionFault::Short {
                    wanted: 1087,
                    found: 8,
                },
            },
            file: b"\t <tsduck",
        },
    ];
    &ROWS
}

// Files that begin with the byte of a packet.
fn packet_rows() -> &'static [SectionRow] {
    static ROWS: [SectionRow; 3] = [
        SectionRow {
            about: "one packet",
            fault: DecompileFault::Section {
                offset: 0,
                fault: SectionFault::Short {
                    wanted: 260,
                    found: 188,
                },
            },
            file: &[0x47; 188],
        },
        SectionRow {
            about: "a packet and the first byte of the next one",
            fault: DecompileFault::Section {
                offset: 0,
                fault: SectionFault::Short {
                    wanted: 260,
                    found: 189,
                },
            },
            file: &[0x47; 189],
        },
        SectionRow {
            about: "a table_id that is the byte of a packet",
            fault: DecompileFault::Section {
                offset: 0,
                fault: SectionFault::Short {
                    wanted: 260,
                    found: 189,
                },
            },
            file: b"G",
        },
    ];
    &ROWS
}

/// The tables of rows, each about one topic.
pub(crate) fn section_tables() -> [&'static [SectionRow]; 5] {
    [
        damaged_rows(),
        form_rows(),
        number_rows(),
        text_rows(),
        packet_rows(),
    ]
}
