//! What is said of bytes that were not decompiled.
use crate::file_kind::other_than_sections;
use std::alloc::{AllocError, Global};
use tabcomp_core::DecompileFault;
use ts_section::{SectionFault, SectionRule};

// Puts what is said of bytes that are not a section.
fn put_section(text: &mut String, fault: SectionFault) -> Result<(), AllocError> {
    match fault {
        SectionFault::Short { wanted, found } => {
            write!(
                text,
                "section cut short: {wanted} bytes needed, {found} there\n"
            )
        }
        SectionFault::Invalid { rule } => {
            text.push_str(match rule {
                SectionRule::Stuffing => "no section: table_id is 0xFF\n",
                SectionRule::Trailing => "bytes after the end of the section\n",
                SectionRule::ShortLong => "section_length is too small for a long section\n",
                SectionRule::Numbers => "section_number is above last_section_number\n",
            })
        }
        SectionFault::TooLong { length } => {
            write!(text, "section_length {length} is above 4093\n")
        }
        SectionFault::BadCrc { wanted, found } => {
            write!(
                text,
                "wrong CRC: 0x{found:08x} in the section, 0x{wanted:08x} computed\n"
            )
        }
        SectionFault::NoMemory => text.push_str("out of memory\n"),
    }
}

/// What is said of bytes that were not decompiled: a line with the offset of the first faulty section, and which rule it breaks;
/// and where the bytes were kept, another one on what they seem to be, which is given for a text in JSON.
pub fn decompile_text(
    alloc: Global,
    fault: DecompileFault,
    file: Option<&[u8]>,
    json: &str,
) -> Result<String, AllocError> {
    let mut text = String::new(alloc);
    match fault {
        DecompileFault::Section { offset, fault } => {
            write!(text, "byte {offset}: ")?;
            put_section(&mut text, fault)?;
        }
        DecompileFault::Sequence { offset } => {
            write!(
                text,
                "byte {offset}: the sections of a table have to follow one another"
            )?;
            text.push_str(", from section_number 0 to last_section_number\n")?;
        }
        DecompileFault::NoMemory => text.push_str("out of memory\n")?,
    }
    if let Some(file) = file {
        text.push_str(other_than_sections(file, json))?;
    }
    Ok(text)
}
