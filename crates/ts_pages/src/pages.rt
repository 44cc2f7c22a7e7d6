//! The page of a tag.

ghost use Rattle.std.specs.Prelude.{◌≡◌, true, option_map, IfSome, IsTrue};
ghost use Rattle.ts_fields.specs.Bodies.{page, page_sound, page_exact};
ghost use Rattle.ts_pages.specs.Pages.{page_of};

use crate::{delivery, dvb, mpeg};
use ts_fields::Layout;

/// The page of a descriptor_tag whose descriptors have a struct; `None` for every other tag.
pub fn layout_of(tag: u8) -> Option<&'static Layout>
    ensures page { option_map (λ l. page l.now) result ≡ page_of tag }
    ensures sound { IfSome result (λ l. IsTrue (page_sound (page l.now))) }
    ensures exact { IfSome result (λ l. page_exact (page l.now) ≡ true) }
{
    match tag {
        0x05 => Some(&mpeg::REGISTRATION),
        0x06 => Some(&mpeg::DATA_STREAM_ALIGNMENT),
        0x09 => Some(&mpeg::CA),
        0x0A => Some(&mpeg::LANGUAGE),
        0x0E => Some(&mpeg::MAXIMUM_BITRATE),
        0x40 => Some(&dvb::NETWORK_NAME),
        0x41 => Some(&dvb::SERVICE_LIST),
        0x43 => Some(&delivery::SATELLITE),
        0x44 => Some(&delivery::CABLE),
        0x47 => Some(&dvb::BOUQUET_NAME),
        0x48 => Some(&dvb::SERVICE),
        0x4D => Some(&dvb::SHORT_EVENT),
        0x50 => Some(&dvb::COMPONENT),
        0x52 => Some(&dvb::STREAM_IDENTIFIER),
        0x53 => Some(&dvb::CA_IDENTIFIER),
        0x54 => Some(&dvb::CONTENT),
        0x55 => Some(&dvb::PARENTAL_RATING),
        0x56 => Some(&dvb::TELETEXT),
        0x59 => Some(&dvb::SUBTITLING),
        0x5A => Some(&delivery::TERRESTRIAL),
        0x5F => Some(&dvb::PRIVATE_DATA_SPECIFIER),
        _ => None,
    }
}
