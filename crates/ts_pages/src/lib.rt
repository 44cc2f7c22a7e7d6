//! The pages of the descriptors that have a struct, one row a field. A tag comes in; the page goes out. The layer above
//! rests on the statics, which by `layout_of` are the pages of `specs/Pages.antt`.
#![tactic(auto)]

/// The rows of a page, each a name and a kind of field: `"name" Kind;` or `"name" Kind(count);`.
#[macro_export]
macro_rules! rows {
    ($($name:literal $kind:ident $(($count:literal))?;)*) => {
        &[$(Field { name: $name, kind: Kind::$kind $(($count))?, absent: None, range: None }),*]
    };
}

pub mod delivery;
pub mod dvb;
pub mod mpeg;
mod pages;

pub use pages::layout_of;
