//! The descriptors of ISO/IEC 13818-1 as values with a field for each name. Descriptors come in and values go out, or
//! the other way. The layer above rests on `MpegDescr::read` and `MpegDescr::write`, by the pages of `ts_pages`.
#![tactic(auto)]

mod ca;
mod data_stream_alignment;
mod language;
mod maximum_bitrate;
mod mpeg_descr;
mod registration;

pub use ca::Ca;
pub use data_stream_alignment::DataStreamAlignment;
pub use language::Language;
pub use maximum_bitrate::MaximumBitrate;
pub use mpeg_descr::MpegDescr;
pub use registration::Registration;
pub use ts_descr::{DescrRefusal, LanguageCode};
