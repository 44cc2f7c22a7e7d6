//! The page of an extension descriptor by the tag of its extension, and by its name. Written by tools/pages from pages.txt.

ghost use Rattle.std.specs.Prelude.{◌≡◌, true, option_map, IfSome, IsTrue};
ghost use Rattle.ts_fields.specs.Bodies.{page, page_sound, page_exact};
ghost use Rattle.ts_groups.specs.Groups.{groups_in};
ghost use Rattle.ts_shown_pages.specs.Extensions;

use crate::shown;
use ts_fields::Layout;
use ts_groups::FieldGroup;

/// The descriptor_tag of extension descriptors (ETSI EN 300 468, 6.2.16).
pub const EXTENSION_TAG: u8 = 0x7F;

// The tags of extensions that have a page, in their order.
static TAGS: [u8; 7] = [0x04, 0x06, 0x08, 0x0D, 0x13, 0x15, 0x20];

/// The page of a descriptor_tag_extension, whose tag is that of the extension; `None` for one without a page here.
#[tactic(auto, unfolding(crate::specs::Extensions::extensions))]
pub fn extension_of(tag: u8) -> Option<&'static Layout>
    ensures page { option_map (λ l. page l.now) result ≡ Extensions.extension_of tag }
    ensures sound { IfSome result (λ l. IsTrue (page_sound (page l.now))) }
    ensures exact { IfSome result (λ l. page_exact (page l.now) ≡ true) }
{
    match tag {
        0x04 => Some(&shown::T2_DELIVERY_SYSTEM),
        0x06 => Some(&shown::SUPPLEMENTARY_AUDIO),
        0x08 => Some(&shown::MESSAGE),
        0x0D => Some(&shown::C2_DELIVERY_SYSTEM),
        0x13 => Some(&shown::URI_LINKAGE),
        0x15 => Some(&shown::AC4),
        0x20 => Some(&shown::TTML_SUBTITLING),
        _ => None,
    }
}

/// The page of the name of an extension descriptor; `None` for a name without a page here.
pub fn extension_named(name: &str) -> Option<&'static Layout>
    ensures page { option_map (λ l. page l.now) result ≡ Extensions.extension_named name.now }
    ensures sound { IfSome result (λ l. IsTrue (page_sound (page l.now))) }
    ensures exact { IfSome result (λ l. page_exact (page l.now) ≡ true) }
{
    for tag in &TAGS {
        if let Some(layout) = extension_of(*tag) {
            if name == layout.name {
                return Some(layout);
            }
        }
    }
    None
}

/// The groups of further fields of the page of a descriptor_tag_extension, which are there by the values of its fields;
/// `None` where its fields are always the same.
pub fn extension_groups_of(tag: u8) -> Option<&'static [FieldGroup]>
    ensures { option_map (λ groups. groups_in groups.now) result ≡ Extensions.extension_groups_of tag }
{
    match tag {
        0x06 => Some(shown::SUPPLEMENTARY_AUDIO_GROUPS),
        0x13 => Some(shown::URI_LINKAGE_GROUPS),
        0x15 => Some(shown::AC4_GROUPS),
        _ => None,
    }
}
