//! The pages by which JSON shows descriptors. A tag or a name comes in; the page goes out. The layer above rests on
//! `layout_of`, `layout_named`, `groups_of` and `form_of`, which are the pages, their groups and the forms of their items of
//! `specs/Pages.antt`, and on `extension_of`, `extension_named` and `extension_groups_of`, those of the extension descriptors
//! of `specs/Extensions.antt`.
#![tactic(auto)]

mod extensions;
mod pages;
pub mod shown;

pub use extensions::{EXTENSION_TAG, extension_groups_of, extension_named, extension_of};
pub use pages::{form_of, groups_of, layout_named, layout_of};
