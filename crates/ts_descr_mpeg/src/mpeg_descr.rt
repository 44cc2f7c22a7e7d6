//! The MPEG descriptors that have a page.

ghost use Rattle.std.specs.Prelude.{◌≡◌, option_map, IfOk};
ghost use Rattle.ts_descr.specs.Descriptors.{read_typed, Writes, IsReadBack};
ghost use Rattle.ts_descr_mpeg.specs.MpegDescrs.{mpeg_pages, mpeg_page, mpeg_holding, mpeg_typed};

use crate::ca::Ca;
use crate::data_stream_alignment::DataStreamAlignment;
use crate::language::Language;
use crate::maximum_bitrate::MaximumBitrate;
use crate::registration::Registration;
use std::alloc::{AllocError, Global};
use ts_bits::Descriptor;
use ts_descr::{DescrRefusal, read_fields, read_items, write_fields, write_items};
use ts_pages::mpeg;

/// A descriptor of ISO/IEC 13818-1, 2.6, with a field for each name of its page.
#[derive(Drop)]
pub enum MpegDescr {
    /// Tag 0x05: the organisation that defines the private data of a program or component (2.6.8).
    Registration(Registration),
    /// Tag 0x06: the kind of unit with which the aligned PES packets of a stream begin (2.6.10).
    DataStreamAlignment(DataStreamAlignment),
    /// Tag 0x09: the PID of the ECMs or the EMMs of a conditional access system (2.6.16).
    Ca(Ca),
    /// Tag 0x0A: the languages of a component (2.6.18).
    Iso639Language(Vec<Language>),
    /// Tag 0x0E: the maximum bit rate of a component, in units of 50 bytes per second (2.6.26).
    MaximumBitrate(MaximumBitrate),
}

impl MpegDescr {
    /// The value of a descriptor; `None` exactly where its tag is none of these, or its body is not of the page of
    /// its tag, in which reserved bits are ones. An `AllocError` where memory runs out.
    pub fn read(alloc: Global, from: &Descriptor) -> Result<Option<MpegDescr>, AllocError>
        ensures { IfOk result (λ o. option_map mpeg_typed o ≡ read_typed mpeg_pages from.now) }
    {
        match from.tag() {
            0x05 => match read_fields(alloc, &mpeg::REGISTRATION, from)? {
                Some(value) => Ok(Some(MpegDescr::Registration(value))),
                None => Ok(None),
            },
            0x06 => match read_fields(alloc, &mpeg::DATA_STREAM_ALIGNMENT, from)? {
                Some(value) => Ok(Some(MpegDescr::DataStreamAlignment(value))),
                None => Ok(None),
            },
            0x09 => match read_fields(alloc, &mpeg::CA, from)? {
                Some(value) => Ok(Some(MpegDescr::Ca(value))),
                None => Ok(None),
            },
            0x0A => match read_items(alloc, &mpeg::LANGUAGE, from)? {
                Some(value) => Ok(Some(MpegDescr::Iso639Language(value))),
                None => Ok(None),
            },
            0x0E => match read_fields(alloc, &mpeg::MAXIMUM_BITRATE, from)? {
                Some(value) => Ok(Some(MpegDescr::MaximumBitrate(value))),
                None => Ok(None),
            },
            _ => Ok(None),
        }
    }

    /// The descriptor with this value; `TooLarge` exactly where its body would have more than 255 bytes, unless
    /// memory runs out. `read` returns this value for no other descriptor.
    pub fn write(&self, alloc: Global) -> Result<Descriptor, DescrRefusal>
        ensures written { Writes (mpeg_page self.now) (mpeg_holding self.now) result }
        ensures back { IfOk result (λ d. IsReadBack mpeg_pages (mpeg_typed self.now) d) }
    {
        match self {
            MpegDescr::Registration(value) => write_fields(alloc, &mpeg::REGISTRATION, value),
            MpegDescr::DataStreamAlignment(value) => write_fields(
                alloc,
                &mpeg::DATA_STREAM_ALIGNMENT,
                value,
            ),
            MpegDescr::Ca(value) => write_fields(alloc, &mpeg::CA, value),
            MpegDescr::Iso639Language(value) => write_items(alloc, &mpeg::LANGUAGE, value),
            MpegDescr::MaximumBitrate(value) => write_fields(alloc, &mpeg::MAXIMUM_BITRATE, value),
        }
    }
}
