//! The page of a tag, and of a name. Written by tools/pages from pages.txt.

ghost use Rattle.std.specs.Prelude.{◌≡◌, true, nat_eq, option_map, IfSome, IsTrue};
ghost use Rattle.std.specs.List.{find};
ghost use Rattle.ts_fields.specs.Bodies.{page, page_sound, page_exact};
ghost use Rattle.ts_groups.specs.Groups.{groups_in};
ghost use Rattle.ts_item_forms.specs.ItemForms.{form};
ghost use Rattle.ts_shown_pages.specs.Pages;
ghost use Rattle.ts_shown_pages.specs.Pages.{page_of, page_named, second_quarter, third_quarter, last_quarter};

use crate::shown;
use ts_fields::Layout;
use ts_groups::FieldGroup;
use ts_item_forms::ItemForm;
use ts_pages::{delivery, dvb, mpeg};

// The tags that have a page, in their order.
static TAGS: [u8; 71] = [
    0x02, 0x03, 0x05, 0x06, 0x09, 0x0A, 0x0B, 0x0C, 0x0E, 0x0F, 0x10, 0x11, 0x1B, 0x1C, 0x28, 0x2B,
    0x38, 0x40, 0x41, 0x42, 0x43, 0x44, 0x45, 0x46, 0x47, 0x48, 0x49, 0x4A, 0x4B, 0x4C, 0x4D, 0x4E,
    0x4F, 0x50, 0x52, 0x53, 0x54, 0x55, 0x56, 0x58, 0x59, 0x5A, 0x5B, 0x5C, 0x5D, 0x5E, 0x5F, 0x60,
    0x61, 0x62, 0x63, 0x64, 0x65, 0x66, 0x69, 0x6A, 0x6B, 0x6E, 0x6F, 0x71, 0x72, 0x73, 0x76, 0x79,
    0x7A, 0x7B, 0x7C, 0x7E, 0x83, 0x87, 0x88,
];

/// The page of a descriptor_tag; `None` for a tag without a page here.
pub fn layout_of(tag: u8) -> Option<&'static Layout>
    ensures page { option_map (λ l. page l.now) result ≡ page_of tag }
    ensures sound { IfSome result (λ l. IsTrue (page_sound (page l.now))) }
    ensures exact { IfSome result (λ l. page_exact (page l.now) ≡ true) }
{
    match tag {
        0x02 => Some(&shown::VIDEO_STREAM),
        0x03 => Some(&shown::AUDIO_STREAM),
        0x05 => Some(&mpeg::REGISTRATION),
        0x06 => Some(&mpeg::DATA_STREAM_ALIGNMENT),
        0x09 => Some(&shown::CA),
        0x0A => Some(&mpeg::LANGUAGE),
        0x0B => Some(&shown::SYSTEM_CLOCK),
        0x0C => Some(&shown::MULTIPLEX_BUFFER_UTILIZATION),
        0x0E => Some(&shown::MAXIMUM_BITRATE),
        0x0F => Some(&shown::PRIVATE_DATA_INDICATOR),
        0x10 => Some(&shown::SMOOTHING_BUFFER),
        0x11 => Some(&shown::STD),
        0x1B => Some(&shown::MPEG4_VIDEO),
        0x1C => Some(&shown::MPEG4_AUDIO),
        0x28 => Some(&shown::AVC_VIDEO),
        0x2B => Some(&shown::MPEG2_AAC_AUDIO),
        0x38 => Some(&shown::HEVC_VIDEO),
        0x40 => Some(&dvb::NETWORK_NAME),
        _ => second_layout(tag),
    }
}

/// The page of a descriptor_tag in the second quarter of the list, or after it.
#[tactic(auto, unfolding(crate::specs::Pages::second_quarter))]
fn second_layout(tag: u8) -> Option<&'static Layout>
    ensures page { option_map (λ l. page l.now) result ≡ find (λ p. nat_eq tag p.tag) second_quarter }
    ensures sound { IfSome result (λ l. IsTrue (page_sound (page l.now))) }
    ensures exact { IfSome result (λ l. page_exact (page l.now) ≡ true) }
{
    match tag {
        0x41 => Some(&dvb::SERVICE_LIST),
        0x42 => Some(&shown::STUFFING),
        0x43 => Some(&delivery::SATELLITE),
        0x44 => Some(&shown::CABLE_DELIVERY_SYSTEM),
        0x45 => Some(&shown::VBI_DATA),
        0x46 => Some(&shown::VBI_TELETEXT),
        0x47 => Some(&dvb::BOUQUET_NAME),
        0x48 => Some(&dvb::SERVICE),
        0x49 => Some(&shown::COUNTRY_AVAILABILITY),
        0x4A => Some(&shown::LINKAGE),
        0x4B => Some(&shown::NVOD_REFERENCE),
        0x4C => Some(&shown::TIME_SHIFTED_SERVICE),
        0x4D => Some(&dvb::SHORT_EVENT),
        0x4E => Some(&shown::EXTENDED_EVENT),
        0x4F => Some(&shown::TIME_SHIFTED_EVENT),
        0x50 => Some(&dvb::COMPONENT),
        0x52 => Some(&dvb::STREAM_IDENTIFIER),
        0x53 => Some(&dvb::CA_IDENTIFIER),
        _ => third_layout(tag),
    }
}

/// The page of a descriptor_tag in the third quarter of the list, or after it.
#[tactic(auto, unfolding(crate::specs::Pages::third_quarter))]
fn third_layout(tag: u8) -> Option<&'static Layout>
    ensures page { option_map (λ l. page l.now) result ≡ find (λ p. nat_eq tag p.tag) third_quarter }
    ensures sound { IfSome result (λ l. IsTrue (page_sound (page l.now))) }
    ensures exact { IfSome result (λ l. page_exact (page l.now) ≡ true) }
{
    match tag {
        0x54 => Some(&dvb::CONTENT),
        0x55 => Some(&dvb::PARENTAL_RATING),
        0x56 => Some(&dvb::TELETEXT),
        0x58 => Some(&shown::LOCAL_TIME_OFFSET),
        0x59 => Some(&dvb::SUBTITLING),
        0x5A => Some(&shown::TERRESTRIAL_DELIVERY_SYSTEM),
        0x5B => Some(&shown::MULTILINGUAL_NETWORK_NAME),
        0x5C => Some(&shown::MULTILINGUAL_BOUQUET_NAME),
        0x5D => Some(&shown::MULTILINGUAL_SERVICE_NAME),
        0x5E => Some(&shown::MULTILINGUAL_COMPONENT),
        0x5F => Some(&dvb::PRIVATE_DATA_SPECIFIER),
        0x60 => Some(&shown::SERVICE_MOVE),
        0x61 => Some(&shown::SHORT_SMOOTHING_BUFFER),
        0x62 => Some(&shown::FREQUENCY_LIST),
        0x63 => Some(&shown::PARTIAL_TRANSPORT_STREAM),
        0x64 => Some(&shown::DATA_BROADCAST),
        0x65 => Some(&shown::SCRAMBLING),
        0x66 => Some(&shown::DATA_BROADCAST_ID),
        _ => last_layout(tag),
    }
}

/// The page of a descriptor_tag in the last quarter of the list.
#[tactic(auto, unfolding(crate::specs::Pages::last_quarter))]
fn last_layout(tag: u8) -> Option<&'static Layout>
    ensures page { option_map (λ l. page l.now) result ≡ find (λ p. nat_eq tag p.tag) last_quarter }
    ensures sound { IfSome result (λ l. IsTrue (page_sound (page l.now))) }
    ensures exact { IfSome result (λ l. page_exact (page l.now) ≡ true) }
{
    match tag {
        0x69 => Some(&shown::PDC),
        0x6A => Some(&shown::AC3),
        0x6B => Some(&shown::ANCILLARY_DATA),
        0x6E => Some(&shown::ANNOUNCEMENT_SUPPORT),
        0x6F => Some(&shown::APPLICATION_SIGNALLING),
        0x71 => Some(&shown::SERVICE_IDENTIFIER),
        0x72 => Some(&shown::SERVICE_AVAILABILITY),
        0x73 => Some(&shown::DEFAULT_AUTHORITY),
        0x76 => Some(&shown::CONTENT_IDENTIFIER),
        0x79 => Some(&shown::S2_SATELLITE_DELIVERY_SYSTEM),
        0x7A => Some(&shown::ENHANCED_AC3),
        0x7B => Some(&shown::DTS),
        0x7C => Some(&shown::AAC),
        0x7E => Some(&shown::FTA_CONTENT_MANAGEMENT),
        0x83 => Some(&shown::LOGICAL_CHANNEL),
        0x87 => Some(&shown::LOGICAL_CHANNEL_V2),
        0x88 => Some(&shown::HD_SIMULCAST_LOGICAL_CHANNEL),
        _ => None,
    }
}

/// The page of the name of a descriptor; `None` for a name without a page here.
pub fn layout_named(name: &str) -> Option<&'static Layout>
    ensures page { option_map (λ l. page l.now) result ≡ page_named name.now }
    ensures sound { IfSome result (λ l. IsTrue (page_sound (page l.now))) }
    ensures exact { IfSome result (λ l. page_exact (page l.now) ≡ true) }
{
    for tag in &TAGS {
        if let Some(layout) = layout_of(*tag) {
            if name == layout.name {
                return Some(layout);
            }
        }
    }
    None
}

/// The groups of further fields of the page of a descriptor_tag, which are there by the values of its fields; `None` where
/// its fields are always the same.
pub fn groups_of(tag: u8) -> Option<&'static [FieldGroup]>
    ensures { option_map (λ groups. groups_in groups.now) result ≡ Pages.groups_of tag }
{
    match tag {
        0x02 => Some(shown::VIDEO_STREAM_GROUPS),
        0x38 => Some(shown::HEVC_VIDEO_GROUPS),
        0x6A => Some(shown::AC3_GROUPS),
        0x79 => Some(shown::S2_SATELLITE_DELIVERY_SYSTEM_GROUPS),
        0x7A => Some(shown::ENHANCED_AC3_GROUPS),
        _ => None,
    }
}

/// The form of the items of the page of a descriptor_tag, whose first fields say which others they have, or which have items
/// in them; `None` where it has no such items.
pub fn form_of(tag: u8) -> Option<&'static ItemForm>
    ensures { option_map (λ f. form f.now) result ≡ Pages.form_of tag }
{
    match tag {
        0x6E => Some(&shown::ANNOUNCEMENT_SUPPORT_FORM),
        0x76 => Some(&shown::CONTENT_IDENTIFIER_FORM),
        0x87 => Some(&shown::LOGICAL_CHANNEL_V2_FORM),
        _ => None,
    }
}
